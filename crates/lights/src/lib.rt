// The lit pixels of a one-bit frame, by the processor's count of ones on each byte.
#![tactic(auto)]

ghost use Rattle.std.specs.Prelude.{◌≡◌, ◌*◌, ◌≤◌, length, sum_by, count_ones};
ghost use Rattle.refusals.specs.First.{first};
ghost use Rattle.layout.specs.Count.{lit_in};
ghost use Rattle.frames.specs.Description.{raster};
ghost use Rattle.frames.specs.Judged.{Accepted};
ghost use Rattle.lights.specs.Answer.{lit_tests, lights, as_lights};
ghost use Rattle.lights.specs.Bits.{lit_bits};

use frames::Frame;
use refusals::Refusal;

// How many pixels of a one-bit frame have the colour 1, as C is handed it; with a refusal its number and 0.
#[repr(C)]
#[derive(Clone, Copy)]
pub struct Lights {
    pub number: u32,
    pub count: u32,
}

impl From<Result<u32, Refusal>> for Lights {
    ghost from_gives = { λ answer l. l ≡ as_lights answer };

    fn from(answer: Result<u32, Refusal>) -> Self {
        match answer {
            Ok(count) => Lights { number: 0, count },
            Err(refusal) => Lights {
                number: refusal.number(),
                count: 0,
            },
        }
    }
}

// The ones of a block's bytes. A block is so small that 16 bits hold their number: the compiler counts twice as many bytes at once as it does for a sum of 32 bits.
fn ones_of(block: &[u8]) -> u16
    requires { length block.now ≤ 4096 }
    ensures { result ≡ sum_by count_ones block.now }
{
    block.iter().map(|b| b.count_ones() as u16).sum()
}

// The ones among the first n bits of a row: whole bytes, and of the byte behind them what its mask leaves.
fn lit_row(row: &[u8], n: u32) -> u32
    requires { (n ≤ 2048) × (n ≤ length row.now * 8) }
    ensures { result ≡ lit_bits n row.now }
{
    let whole = (n / 8) as usize;
    let rest = n % 8;
    let sum = ones_of(&row[..whole]) as u32;
    if rest == 0 {
        sum
    } else {
        sum + (row[whole] & !packing::bits_from(1, rest)).count_ones()
    }
}

// The lit pixels of an accepted frame, row by row.
fn lit_rows(buf: &[u8], frame: Frame) -> u32
    requires { Accepted frame (length buf.now) × (frame.depth ≡ 1) }
    ensures { result ≡ lit_in (raster frame) buf.now }
{
    let mut sum = 0;
    for y in 0..frame.height {
        let at = (y * frame.distance) as usize;
        sum += lit_row(&buf[at..], frame.width);
    }
    sum
}

// The ones of the bytes, block by block.
fn lit_run(bytes: &[u8]) -> u32
    requires { length bytes.now ≤ 524288 }
    ensures { result ≡ sum_by count_ones bytes.now }
{
    let mut sum = 0;
    for block in bytes.chunks(4096) {
        sum += ones_of(block) as u32;
    }
    sum
}

// The lit pixels of an accepted frame. Rows with nothing between them are one run.
fn lit_frame(buf: &[u8], frame: Frame) -> u32
    requires { Accepted frame (length buf.now) × (frame.depth ≡ 1) }
    ensures { result ≡ lit_in (raster frame) buf.now }
{
    if frame.distance * 8 == frame.width {
        let size = (frame.distance * frame.height) as usize;
        lit_run(&buf[..size])
    } else {
        lit_rows(buf, frame)
    }
}

// How many pixels of a one-bit frame are lit. Padding, and what follows the frame, are not counted.
#[tactic(auto, unfolding(frames::specs::Description::description_tests, frames::specs::Description::frame_tests, crate::specs::Answer::lit_tests))]
pub fn lit(buf: &[u8], frame: Frame) -> Result<u32, Refusal>
    ensures { as_lights result ≡ lights (first (lit_tests frame (length buf.now))) (lit_in (raster frame) buf.now) }
{
    frames::accept_frame(frame, buf.len())?;
    if frame.depth != 1 {
        return Err(Refusal::UnfitFrame);
    }
    Ok(lit_frame(buf, frame))
}
