// The calls on a frame: its size, setting, reading and filling, each on a frame in a lent buffer, and on a canvas that was judged already.
#![tactic(auto)]

ghost use Rattle.std.specs.Prelude.{◌≡◌, ◌*◌, length};
ghost use Rattle.refusals.specs.First.{first};
ghost use Rattle.frames.specs.Answer.{sized, as_size, as_drawn, as_placed, read, as_read};
ghost use Rattle.frames.specs.Description.{at_depth, size, description_tests, read_tests, colour_at};
ghost use Rattle.frames.specs.Judged.{Judged};
ghost use Rattle.frames.specs.Drawing.{fill_drawing, outcome, pixel_outcome};
ghost use Rattle.frames.specs.Canvas.{on_canvas, pixel_on, read_on, has_all};

use frames::{Canvas, Frame};
use painting::Brush;
use refusals::Refusal;

// The bytes that a buffer for the frame must have.
pub fn buffer_size_bpp(frame: Frame) -> Result<u32, Refusal>
    ensures { as_size result ≡ sized (first (description_tests frame)) (size frame) }
{
    frames::accept_description(frame)?;
    Ok(frames::frame_bytes(frame))
}

// Inside the library: the pixel at a place gets the colour, if the canvas's rectangle holds it; and whether it does.
pub fn set_pixel_on(
    buf: &mut [u8],
    canvas: Canvas,
    p: geometry::Point,
    colour: u32,
) -> Result<bool, Refusal>
    requires { Judged canvas (length buf.old) }
    ensures { (as_placed result, buf.new) ≡ pixel_on canvas p colour buf.old }
{
    frames::accept_colour(canvas, colour)?;
    Ok(painting::put_point(buf, Brush::on(canvas, colour), p))
}

// A pixel set on a frame of this depth. The place comes as two numbers, of which the compiler knows more than of a point.
fn set_at_depth<const DEPTH: u32>(
    buf: &mut [u8],
    frame: Frame,
    x: i32,
    y: i32,
    colour: u32,
) -> Result<bool, Refusal>
    ensures { (as_placed result, buf.new) ≡ pixel_outcome (at_depth DEPTH frame) (x, y) colour buf.old }
{
    let known = frame.at_depth(DEPTH);
    set_pixel_on(buf, known.over(buf.len()), geometry::Point(x, y), colour)
}

// The pixel at a place gets the colour; outside the frame nothing changes, and the answer says so. Each depth is handed on as a constant, which measured faster
// (docs/BENCHMARKS.md).
pub fn set_pixel(
    buf: &mut [u8],
    frame: Frame,
    p: geometry::Point,
    colour: u32,
) -> Result<bool, Refusal>
    ensures { (as_placed result, buf.new) ≡ pixel_outcome frame p colour buf.old }
{
    let x = p.0;
    let y = p.1;
    match frame.depth {
        1 => set_at_depth::<1>(buf, frame, x, y, colour),
        2 => set_at_depth::<2>(buf, frame, x, y, colour),
        4 => set_at_depth::<4>(buf, frame, x, y, colour),
        8 => set_at_depth::<8>(buf, frame, x, y, colour),
        16 => set_at_depth::<16>(buf, frame, x, y, colour),
        24 => set_at_depth::<24>(buf, frame, x, y, colour),
        32 => set_at_depth::<32>(buf, frame, x, y, colour),
        _ => Err(Refusal::BadDepth),
    }
}

// Inside the library: `pixel` on a canvas.
pub fn pixel_on(buf: &[u8], canvas: Canvas, p: geometry::Point) -> Result<u32, Refusal>
    requires { Judged canvas (length buf.now) }
    ensures { as_read result ≡ read_on canvas p buf.now }
{
    canvas.judged?;
    let frame = canvas.frame;
    let window = canvas.window;
    let x = p.0;
    let y = p.1;
    if !window.holds(x, y) {
        return Err(Refusal::OutsideFrame);
    }
    Ok(painting::read_point(buf, frame, x as u32, y as u32))
}

// The colour of the pixel at a place.
pub fn pixel(buf: &[u8], frame: Frame, p: geometry::Point) -> Result<u32, Refusal>
    ensures { as_read result ≡ read (first (read_tests frame (length buf.now) p)) (colour_at frame p buf.now) }
{
    pixel_on(buf, frame.over(buf.len()), p)
}

// Whether a canvas has the whole frame.
fn is_whole(canvas: Canvas) -> bool
    ensures { result ≡ has_all canvas }
{
    let frame = canvas.frame;
    let window = canvas.window;
    ((window.left == 0) & (window.top == 0))
        & ((window.right == frame.width) & (window.bottom == frame.height))
}

// Inside the library: `fill` on a canvas. The whole frame is filled as one run where it has no padding.
pub fn fill_on(buf: &mut [u8], canvas: Canvas, colour: u32) -> Result<u32, Refusal>
    requires { Judged canvas (length buf.old) }
    ensures { (as_drawn result, buf.new) ≡ on_canvas canvas (fill_drawing colour) buf.old }
{
    frames::accept_colour(canvas, colour)?; // Before a byte is touched.
    if !is_whole(canvas) {
        return Ok(painting::fill_rows(buf, Brush::on(canvas, colour)));
    }
    let frame = canvas.frame;
    painting::fill_frame(buf, frame, colour);
    Ok(frame.height * frame.width)
}

// Every pixel of the frame gets the colour.
pub fn fill(buf: &mut [u8], frame: Frame, colour: u32) -> Result<u32, Refusal>
    ensures { (as_drawn result, buf.new) ≡ outcome frame (fill_drawing colour) buf.old }
{
    fill_on(buf, frame.over(buf.len()), colour)
}
