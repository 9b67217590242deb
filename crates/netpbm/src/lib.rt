// Frames as Netpbm files: written into a lent buffer, and read back.
#![tactic(auto)]

ghost use Rattle.std.specs.Prelude.{◌≡◌, ◌+◌, ◌-◌, ◌*◌, ◌/◌, ◌≤◌, ◌<◌, length, get_or, IfOk};
ghost use Rattle.std.proofs.lemmas.List.Edits.{sets};
ghost use Rattle.refusals.specs.First.{first};
ghost use Rattle.refusals.specs.Refusal.{as_number};
ghost use Rattle.headers.specs.Header.{header_said};
ghost use Rattle.layout.specs.Digits.{set_run};
ghost use Rattle.frames.specs.Answer.{sized, as_size};
ghost use Rattle.frames.specs.Judged.{Described};
ghost use Rattle.netpbm.specs.Image.{header, big_first, image_length};
ghost use Rattle.netpbm.specs.Written.{no_format, image_size_tests, write_tests, written, Writable};
ghost use Rattle.netpbm.specs.Reading.{load_tests, loaded};
ghost use Rattle.frames.specs.Description.{size};
ghost use Rattle.netpbm.specs.Words.{Alike, transferred, masked_rows, copied_row, turned_row, is_turned, is_run};

use frames::Frame;
use refusals::Refusal;

// ---- the refusals and the length

fn has_no_format(frame: Frame) -> bool
    ensures { result ≡ no_format frame }
{
    !matches!(frame.depth, 1 | 8 | 24) || frame.width == 0 || frame.height == 0
}

fn header_length(frame: Frame) -> u32
    requires { Described frame }
    ensures { result ≡ length (header frame) }
{
    let digits = text::digit_count(frame.width as u64) + text::digit_count(frame.height as u64);
    let rest = if frame.depth == 1 { 5 } else { 9 };
    (digits + rest) as u32
}

// A frame of that size and depth with its big end first and no gap between its rows, as files keep their pixels.
fn in_file(frame: Frame) -> Frame
    ensures { result ≡ big_first frame }
{
    Frame::packed(frame.width, frame.height, frame.depth, true)
}

// The bytes that the file of a described frame takes.
fn image_length(frame: Frame) -> u32
    requires { Described frame }
    ensures { result ≡ image_length frame }
{
    header_length(frame) + frames::frame_bytes(in_file(frame))
}

// The bytes that the file of a frame takes.
#[tactic(auto, unfolding(frames::specs::Description::description_tests, crate::specs::Written::image_size_tests))]
pub fn image_size(frame: Frame) -> Result<u32, Refusal>
    ensures { as_size result ≡ sized (first (image_size_tests frame)) (image_length frame) }
{
    frames::accept_description(frame)?;
    if has_no_format(frame) {
        return Err(Refusal::UnfitFrame);
    }
    Ok(image_length(frame))
}

// ---- the header

// Answers where the pixels start.
fn write_header(out: &mut [u8], frame: Frame) -> usize
    requires { length (header frame) ≤ length out.old }
    ensures { (result ≡ length (header frame)) × (out.new ≡ sets out.old 0 (header frame)) }
{
    let magic = [b'P', headers::kind_of(frame.depth), b'\n'];
    let second = text::write_bytes(out, 0, &magic);
    let third = text::write_number(out, second, frame.width as u64, b' ');
    let end = text::write_number(out, third, frame.height as u64, b'\n');
    if frame.depth == 1 {
        end
    } else {
        text::write_bytes(out, end, b"255\n")
    }
}

// ---- the pixels, from one frame into another of the same size and depth, row by row

// The bytes of one part to another of the same length. By a loop: `copy_from_slice` is a call of the C library's `memmove`, which callers of the library would have to link,
// and which takes longer than a short row (docs/BENCHMARKS.md).
fn copy(from: &[u8], to: &mut [u8])
    requires { length from.now ≡ length to.old }
    ensures { to.new ≡ from.now }
{
    for i in 0..to.len() {
        to[i] = from[i];
    }
}

// The bytes of one part to another of the same length. Those before `lead` go by themselves, so that the loop over all others begins there.
fn copy_run(from: &[u8], to: &mut [u8], lead: usize)
    requires { length from.now ≡ length to.old }
    ensures { to.new ≡ from.now }
{
    if to.len() <= lead {
        copy(from, to);
    } else {
        copy(&from[..lead], &mut to[..lead]);
        copy(&from[lead..], &mut to[lead..]);
    }
}

// A row's bytes, and of the last one the bits that the mask has. Its other bits stay as far as `kept` has them.
fn copy_row(from: &[u8], to: &mut [u8], mask: u8, kept: u8)
    requires { (length from.now ≡ length to.old) × (0 < length to.old) }
    ensures { to.new ≡ copied_row from.now 0 0 (length to.old - 1) mask kept to.old }
{
    let last = to.len() - 1;
    copy(&from[..last], &mut to[..last]);
    to[last] = (to[last] & kept & !mask) | (from[last] & mask);
}

// A row's pixels of three bytes, each turned round. By index: zipped chunks of three take half as many instructions again (docs/BENCHMARKS.md).
fn turn_row(from: &[u8], to: &mut [u8])
    requires { length from.now ≡ length to.old }
    ensures { to.new ≡ turned_row from.now 0 0 (length to.old / 3) to.old }
{
    for p in 0..to.len() / 3 {
        let at = p * 3;
        to[at] = from[at + 2];
        to[at + 1] = from[at + 1];
        to[at + 2] = from[at];
    }
}

// Whether a pixel's bytes are turned round on the way: it has three, and the orders differ.
fn is_turned(source: Frame, target: Frame) -> bool
    ensures { result ≡ is_turned source target }
{
    target.depth == 24 && source.big != target.big
}

// Row y. Its bytes are the source's, but for the padding and, where the orders differ, for the order of a pixel's bytes. The bytes behind it stay.
fn transfer_row(from: &[u8], source: Frame, to: &mut [u8], target: Frame, kept: u8, y: u32)
    requires { Alike source (length from.now) target (length to.old) × (y < target.height) }
    ensures { to.new ≡
        (let at = y * target.distance in
        let all = transferred source from.now target (masked_rows target kept to.old) in
        set_run at target.distance (λ k. get_or all (at + k) 0) to.old) }
{
    let bits = target.width * target.depth;
    let row = (bits + 7) / 8;
    let at = (y * source.distance) as usize;
    let start = (y * target.distance) as usize;
    let source_row = &from[at..at + row as usize];
    let target_row = &mut to[start..start + row as usize];
    if is_turned(source, target) {
        turn_row(source_row, target_row);
    } else {
        let mask = 255u8 << (row * 8 - bits);
        copy_row(source_row, target_row, mask, kept);
    }
}

// Whether the rows of both are one run of the same bytes: no row has padding or a gap behind it, and no pixel's bytes are turned round.
fn is_run(source: Frame, target: Frame) -> bool
    requires { Described source × Described target }
    ensures { result ≡ is_run source target }
{
    let bits = target.width * target.depth;
    source.distance * 8 == bits && target.distance * 8 == bits && !is_turned(source, target)
}

// All rows. The padding in a row's last byte stays as far as `kept` has its bits; the bytes between the rows and behind the frame stay. Rows that are one run are
// copied from byte `lead` on by one loop.
fn transfer_rows(from: &[u8], source: Frame, to: &mut [u8], target: Frame, kept: u8, lead: usize)
    requires { Alike source (length from.now) target (length to.old) }
    ensures { to.new ≡ transferred source from.now target (masked_rows target kept to.old) }
{
    if is_run(source, target) {
        let bytes = (target.distance * target.height) as usize;
        copy_run(&from[..bytes], &mut to[..bytes], lead);
    } else {
        for y in 0..target.height {
            transfer_row(from, source, to, target, kept, y);
        }
    }
}

// How many bytes the file of a frame over `len` bytes has, where `room` bytes are enough for it.
#[tactic(auto, unfolding(frames::specs::Description::description_tests, frames::specs::Description::frame_tests, crate::specs::Written::write_tests))]
fn accept_writing(frame: Frame, len: usize, room: usize) -> Result<u32, Refusal>
    ensures number { as_number result ≡ first (write_tests frame len room) }
    ensures accepted { IfOk result (λ bytes. (bytes ≡ image_length frame) × (bytes ≤ room) × Writable frame len) }
{
    frames::accept_frame(frame, len)?;
    if has_no_format(frame) {
        return Err(Refusal::UnfitFrame);
    }
    let bytes = image_length(frame);
    if room < bytes as usize {
        return Err(Refusal::ShortOutput);
    }
    Ok(bytes)
}

// Writes the file of a frame from the output's first byte on, and answers how many bytes it has. The bytes behind them stay.
pub fn write_image(buf: &[u8], frame: Frame, out: &mut [u8]) -> Result<u32, Refusal>
    ensures { (as_size result, out.new) ≡ written frame buf.now out.old }
{
    let bytes = accept_writing(frame, buf.len(), out.len())?;
    let start = write_header(out, frame);
    let end = bytes as usize;
    transfer_rows(buf, frame, &mut out[start..end], in_file(frame), 0, 0);
    Ok(bytes)
}

// ---- reading

// Where the pixels start in a file that is read into a frame over `len` bytes.
#[tactic(auto, unfolding(frames::specs::Description::description_tests, frames::specs::Description::frame_tests, crate::specs::Reading::file_tests, crate::specs::Reading::load_tests))]
fn accept_reading(frame: Frame, len: usize, file: &[u8]) -> Result<usize, Refusal>
    ensures number { as_number result ≡ first (load_tests frame len file.now) }
    ensures accepted { IfOk result (λ start. (start ≡ (header_said frame.depth file.now).start) × (start + size (big_first frame) ≤ length file.now) × Writable frame len) }
{
    frames::accept_frame(frame, len)?;
    if has_no_format(frame) {
        return Err(Refusal::UnfitFrame);
    }
    let header = headers::read_header(file, frame.depth).ok_or(Refusal::BadHeader)?;
    if !((header.width == frame.width) & (header.height == frame.height)) {
        return Err(Refusal::OtherSize);
    }
    if file.len() - header.start < frames::frame_bytes(in_file(frame)) as usize {
        return Err(Refusal::ShortFile);
    }
    Ok(header.start)
}

// Sets every pixel of a frame to that of a file of its size and depth. All other bits stay: padding, the bytes between the rows and behind the frame.
pub fn read_image(buf: &mut [u8], frame: Frame, file: &[u8]) -> Result<(), Refusal>
    ensures { (as_number result, buf.new) ≡ loaded frame file.now buf.old }
{
    let start = accept_reading(frame, buf.len(), file)?;
    // Most files begin at a multiple of 16 bytes in memory, and loads across such a multiple take longer than stores (docs/BENCHMARKS.md): the loads are to begin at one.
    let lead = (16 - start % 16) % 16;
    transfer_rows(&file[start..], in_file(frame), buf, frame, 255, lead);
    Ok(())
}
