// A frame as its owner describes it, the tests that refuse it, and a frame judged over a buffer: a canvas. Nothing here reaches a byte.
#![tactic(auto)]

ghost use Rattle.std.specs.Prelude.{◌≡◌, true, [], ◌+◌, ◌*◌, ◌/◌, ◌≤◌, ◌<◌, OnOk};
ghost use Rattle.refusals.specs.First.{first};
ghost use Rattle.refusals.specs.Refusal.{as_number};
ghost use Rattle.layout.specs.Packed.{good_depth};
ghost use Rattle.frames.specs.Description.{whole_window, described, at_depth, packed_distance, packed, no_distance, size, size_tests, description_tests, frame_tests};
ghost use Rattle.frames.specs.Judged.{Described, Accepted, OverBytes, JudgedSome};
ghost use Rattle.frames.specs.Answer.{as_size, as_drawn, as_placed, as_read};
ghost use Rattle.frames.specs.Canvas.{number_on};

use refusals::Refusal;
use windows::Window;

// A frame as its owner describes it; `distance` is the number of bytes from a row to the next. It is made by Frame::new and Frame::packed and by nothing
// else outside this crate.
#[derive(Clone, Copy)]
pub struct Frame {
    pub width: u32,
    pub height: u32,
    pub depth: u32,
    pub big: bool,
    pub distance: u32,
}

// Inside the library: a frame and a rectangle of it that calls stay within, with what was judged of it over a buffer. Calls on one of them and one buffer need not judge it each.
#[derive(Clone, Copy)]
pub struct Canvas {
    pub frame: Frame,
    pub window: Window,
    pub judged: Result<(), Refusal>,
}

// ---- answers, as C is handed them: with a refusal its number, and 0 or no

// The bytes that a frame takes.
#[repr(C)]
#[derive(Clone, Copy)]
pub struct Size {
    pub number: u32,
    pub bytes: u32,
}

impl From<Result<u32, Refusal>> for Size {
    ghost from_gives = { λ answer s. s ≡ as_size answer };

    fn from(answer: Result<u32, Refusal>) -> Self {
        match answer {
            Ok(bytes) => Size { number: 0, bytes },
            Err(refusal) => Size {
                number: refusal.number(),
                bytes: 0,
            },
        }
    }
}

// How many pixels of the frame the figure of a drawing call contains.
#[repr(C)]
#[derive(Clone, Copy)]
pub struct Drawn {
    pub number: u32,
    pub count: u32,
}

impl From<Result<u32, Refusal>> for Drawn {
    ghost from_gives = { λ answer d. d ≡ as_drawn answer };

    fn from(answer: Result<u32, Refusal>) -> Self {
        match answer {
            Ok(count) => Drawn { number: 0, count },
            Err(refusal) => Drawn {
                number: refusal.number(),
                count: 0,
            },
        }
    }
}

// Whether a pixel that was set is inside the frame.
#[repr(C)]
#[derive(Clone, Copy)]
pub struct Placed {
    pub number: u32,
    pub inside: bool,
}

impl From<Result<bool, Refusal>> for Placed {
    ghost from_gives = { λ answer p. p ≡ as_placed answer };

    fn from(answer: Result<bool, Refusal>) -> Self {
        match answer {
            Ok(inside) => Placed { number: 0, inside },
            Err(refusal) => Placed {
                number: refusal.number(),
                inside: false,
            },
        }
    }
}

// The colour of a pixel.
#[repr(C)]
#[derive(Clone, Copy)]
pub struct Read {
    pub number: u32,
    pub colour: u32,
}

impl From<Result<u32, Refusal>> for Read {
    ghost from_gives = { λ answer r. r ≡ as_read answer };

    fn from(answer: Result<u32, Refusal>) -> Self {
        match answer {
            Ok(colour) => Read { number: 0, colour },
            Err(refusal) => Read {
                number: refusal.number(),
                colour: 0,
            },
        }
    }
}

// ---- frames

// The bytes that a row takes, or 0 where they pass 32 bits.
fn packed_distance(width: u32, depth: u32) -> u32
    ensures { result ≡ packed_distance width depth }
{
    let bytes = (width as u64 * depth as u64 + 7) / 8;
    if bytes <= 4294967295 {
        return bytes as u32;
    }
    0
}

impl Frame {
    // The description of a frame, which any five values make; each operation judges it.
    pub fn new(width: u32, height: u32, depth: u32, big: bool, distance: u32) -> Self
        ensures { result ≡ described width height depth big distance }
    {
        Self {
            width,
            height,
            depth,
            big,
            distance,
        }
    }

    // The description of a frame whose rows have no gap between them.
    pub fn packed(width: u32, height: u32, depth: u32, big: bool) -> Self
        ensures { result ≡ packed width height depth big }
    {
        Self::new(width, height, depth, big, packed_distance(width, depth))
    }

    // Inside the library: the same frame at a depth. Where that is a constant the compiler works out what goes by it: the bytes of a row and of a pixel, the mask, each shift.
    pub fn at_depth(self, depth: u32) -> Self
        ensures { result ≡ at_depth depth self }
    {
        Self::new(self.width, self.height, depth, self.big, self.distance)
    }

    // The rectangle of the whole frame.
    fn window(self) -> Window
        ensures { result ≡ whole_window self }
    {
        Window {
            left: 0,
            top: 0,
            right: self.width,
            bottom: self.height,
        }
    }
}

fn depth_ok(depth: u32) -> bool
    ensures { result ≡ good_depth depth }
{
    (depth == 1)
        | (depth == 2)
        | (depth == 4)
        | (depth == 8)
        | (depth == 16)
        | (depth == 24)
        | (depth == 32)
}

// Whether the rows are too close to one another, or too far apart.
fn has_no_distance(frame: Frame) -> bool
    requires { (good_depth frame.depth ≡ true) × (frame.width ≤ 2048) }
    ensures { result ≡ no_distance frame }
{
    (frame.distance < (frame.width * frame.depth + 7) / 8) | (16384 < frame.distance)
}

// Whether a frame's depth is one of the seven, and then whether its size is small enough.
fn accept_size(frame: Frame) -> Result<(), Refusal>
    ensures { as_number result ≡ first (size_tests frame) }
{
    if !depth_ok(frame.depth) {
        return Err(Refusal::BadDepth);
    }
    if (2048 < frame.width) | (2048 < frame.height) {
        return Err(Refusal::TooLarge);
    }
    Ok(())
}

// Inside the library: whether a description is accepted.
#[tactic(auto, unfolding(crate::specs::Description::description_tests))]
pub fn accept_description(frame: Frame) -> Result<(), Refusal>
    ensures number { as_number result ≡ first (description_tests frame) }
    ensures accepted { OnOk result (Described frame) }
{
    accept_size(frame)?;
    if has_no_distance(frame) {
        return Err(Refusal::BadDistance);
    }
    Ok(())
}

// Inside the library: the bytes that a described frame takes.
pub fn frame_bytes(frame: Frame) -> u32
    requires { Described frame }
    ensures { result ≡ size frame }
{
    frame.distance * frame.height
}

// Inside the library: whether a frame is accepted over a buffer of `len` bytes.
#[tactic(auto, unfolding(crate::specs::Description::description_tests, crate::specs::Description::frame_tests))]
pub fn accept_frame(frame: Frame, len: usize) -> Result<(), Refusal>
    ensures number { as_number result ≡ first (frame_tests frame len) }
    ensures accepted { OnOk result (Accepted frame len) }
{
    accept_description(frame)?;
    if len < frame_bytes(frame) as usize {
        return Err(Refusal::ShortBuffer);
    }
    Ok(())
}

impl Frame {
    // Inside the library: the whole frame, judged over a buffer of `len` bytes.
    pub fn over(self, len: usize) -> Canvas
        ensures { OverBytes result self len }
    {
        let window = self.window();
        let judged = accept_frame(self, len);
        Canvas {
            frame: self,
            window,
            judged,
        }
    }
}

// Inside the library: whether a call may draw in a colour on a canvas. Its own tests come after.
pub fn accept_colour(canvas: Canvas, colour: u32) -> Result<(), Refusal>
    requires { JudgedSome canvas }
    ensures { as_number result ≡ number_on canvas colour [] }
{
    canvas.judged?;
    let frame = canvas.frame;
    if 1u64 << frame.depth <= colour as u64 {
        return Err(Refusal::BadColour);
    }
    Ok(())
}
