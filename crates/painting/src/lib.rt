// Points, spans and fills in the bytes of an accepted frame, and reading a point. Nothing here judges: figures reach the bytes through put_point, set_point, paint_span and
// paint_more, and the bytes of a pixel through read_point.
#![tactic(auto)]

ghost use Rattle.std.specs.Prelude.{◌≡◌, true, ◌+◌, ◌*◌, ◌/◌, ◌≤◌, ◌<◌, pos, length};
ghost use Rattle.refusals.specs.First.{first};
ghost use Rattle.layout.specs.Figure.{single, span_figure, everywhere};
ghost use Rattle.layout.specs.Layout.{put_pixel, get_pixel, painted};
ghost use Rattle.windows.specs.Window.{in_window, held_by, Within};
ghost use Rattle.frames.specs.Description.{raster};
ghost use Rattle.frames.specs.Judged.{Described, Accepted, Drawable};
ghost use Rattle.painting.specs.Brush.{Ready, brush_of, brushed, on_top};

use frames::{Canvas, Frame};
use windows::Window;

// Inside the library: what painters are given beside the bytes: a frame that was accepted, the rectangle of it that they stay within, and a colour of it.
#[derive(Clone, Copy)]
pub struct Brush {
    pub frame: Frame,
    pub window: Window,
    pub colour: u32,
}

impl Brush {
    // Inside the library: the brush for a canvas's rectangle.
    pub fn on(canvas: Canvas, colour: u32) -> Self
        ensures { result ≡ brush_of canvas colour }
    {
        let frame = canvas.frame;
        let window = canvas.window;
        Self {
            frame,
            window,
            colour,
        }
    }
}

// The byte of pixel (x, y) at which its bits start.
fn byte_of(frame: Frame, x: u32, y: u32) -> usize
    requires { Described frame × (x ≤ 2048) × (y ≤ 2048) }
    ensures { result ≡ y * frame.distance + x * frame.depth / 8 }
{
    (y * frame.distance + x * frame.depth / 8) as usize
}

fn put_at(buf: &mut [u8], frame: Frame, x: u32, y: u32, colour: u32)
    requires { Drawable frame (length buf.old) colour × (x < frame.width) × (y < frame.height) }
    ensures { buf.new ≡ put_pixel (raster frame) x y colour buf.old }
{
    let depth = frame.depth;
    let at = byte_of(frame, x, y);
    if depth < 8 {
        buf[at] = packing::with_field(buf[at], depth, x, colour);
    } else {
        let end = at + (depth / 8) as usize;
        packing::store(&mut buf[at..end], frame.big, colour);
    }
}

// Inside the library: the colour of a pixel of the frame.
pub fn read_point(buf: &[u8], frame: Frame, x: u32, y: u32) -> u32
    requires { Accepted frame (length buf.now) × (x < frame.width) × (y < frame.height) }
    ensures { result ≡ get_pixel (raster frame) x y buf.now }
{
    let depth = frame.depth;
    let at = byte_of(frame, x, y);
    if depth < 8 {
        packing::field_of(buf[at], depth, x)
    } else {
        let end = at + (depth / 8) as usize;
        packing::load(&buf[at..end], frame.big)
    }
}

// The pixel at a place that the rectangle holds gets the colour.
fn put_held(buf: &mut [u8], frame: Frame, window: Window, x: i32, y: i32, colour: u32)
    requires { Drawable frame (length buf.old) colour × Within window frame.width frame.height × (in_window window x y ≡ true) }
    ensures { buf.new ≡ painted (raster frame) (held_by window (single x y)) colour buf.old }
{
    put_at(buf, frame, x as u32, y as u32, colour);
}

// The pixel at a place gets the colour, if the rectangle holds it; and whether it does.
fn put_within(buf: &mut [u8], frame: Frame, window: Window, p: geometry::Point, colour: u32) -> bool
    requires { Drawable frame (length buf.old) colour × Within window frame.width frame.height }
    ensures { (result ≡ in_window window p.0 p.1)
        × (buf.new ≡ painted (raster frame) (held_by window (single p.0 p.1)) colour buf.old) }
{
    let x = p.0;
    let y = p.1;
    if !window.holds(x, y) {
        return false;
    }
    put_held(buf, frame, window, x, y, colour);
    true
}

// Inside the library: the same by a brush.
pub fn put_point(buf: &mut [u8], brush: Brush, p: geometry::Point) -> bool
    requires { Ready brush (length buf.old) }
    ensures { (result ≡ in_window brush.window p.0 p.1) × (buf.new ≡ (brushed brush (single p.0 p.1) buf.old).1) }
{
    put_within(buf, brush.frame, brush.window, p, brush.colour)
}

// Inside the library: the same of a place that is known to be in the brush's rectangle, which is not asked again.
pub fn set_point(buf: &mut [u8], brush: Brush, p: geometry::Point)
    requires { Ready brush (length buf.old) × (in_window brush.window p.0 p.1 ≡ true) }
    ensures { buf.new ≡ (brushed brush (single p.0 p.1) buf.old).1 }
{
    put_held(buf, brush.frame, brush.window, p.0, p.1, brush.colour);
}

// Columns of row y at depths 1, 2 and 4: the end of the first byte, the start of the last, and the whole bytes between. These come last, so that nothing has to be kept
// while they are stored.
fn paint_fields(buf: &mut [u8], frame: Frame, y: u32, from: u32, past: u32, colour: u32)
    requires { Drawable frame (length buf.old) colour × (frame.depth < 8) × (y < frame.height) × (from < past) × (past ≤ frame.width) }
    ensures { buf.new ≡ painted (raster frame) (span_figure (pos y) (pos from) (pos past)) colour buf.old }
{
    let depth = frame.depth;
    let last_column = past - 1;
    let p = packing::pattern(depth, colour);
    let first = byte_of(frame, from, y);
    let last = byte_of(frame, last_column, y);
    let head = packing::bits_from(depth, from);
    let tail = packing::bits_to(depth, last_column);
    if first == last {
        packing::merge_at(buf, first, p, head & tail);
    } else {
        packing::merge_at(buf, first, p, head);
        packing::merge_at(buf, last, p, tail);
        packing::set_all(&mut buf[first + 1..last], p);
    }
}

// The same on a frame of this depth, which is a constant, as in `set_pixel`.
fn fields_at_depth<const DEPTH: u32>(
    buf: &mut [u8],
    frame: Frame,
    y: u32,
    from: u32,
    past: u32,
    colour: u32,
)
    requires { (DEPTH ≡ frame.depth)
        × (Drawable frame (length buf.old) colour × (frame.depth < 8) × (y < frame.height) × (from < past) × (past ≤ frame.width)) }
    ensures { buf.new ≡ painted (raster frame) (span_figure (pos y) (pos from) (pos past)) colour buf.old }
{
    paint_fields(buf, frame.at_depth(DEPTH), y, from, past, colour);
}

fn paint_by_depth(buf: &mut [u8], frame: Frame, y: u32, from: u32, past: u32, colour: u32)
    requires { Drawable frame (length buf.old) colour × (frame.depth < 8) × (y < frame.height) × (from < past) × (past ≤ frame.width) }
    ensures { buf.new ≡ painted (raster frame) (span_figure (pos y) (pos from) (pos past)) colour buf.old }
{
    match frame.depth {
        1 => fields_at_depth::<1>(buf, frame, y, from, past, colour),
        2 => fields_at_depth::<2>(buf, frame, y, from, past, colour),
        _ => fields_at_depth::<4>(buf, frame, y, from, past, colour),
    }
}

// Columns of row y. From depth 8 on they are whole bytes.
fn paint_columns(buf: &mut [u8], frame: Frame, y: u32, from: u32, past: u32, colour: u32)
    requires { Drawable frame (length buf.old) colour × (y < frame.height) × (from < past) × (past ≤ frame.width) }
    ensures { buf.new ≡ painted (raster frame) (span_figure (pos y) (pos from) (pos past)) colour buf.old }
{
    if frame.depth < 8 {
        paint_by_depth(buf, frame, y, from, past, colour);
    } else {
        let start = byte_of(frame, from, y);
        let end = byte_of(frame, past, y);
        packing::fill_part(&mut buf[start..end], frame.depth, frame.big, colour);
    }
}

// Inside the library: row y's columns from `start` to one before `end` get the colour, as far as the rectangle holds them; and how many these are, on top of those that
// were counted before. The sum is made first, so that a caller's loop keeps one number over the painting and not two.
pub fn paint_more(buf: &mut [u8], brush: Brush, y: i32, start: i32, end: i32, before: u32) -> u32
    requires { Ready brush (length buf.old) × (before ≤ 4194304) }
    ensures { (result, buf.new) ≡ on_top before (brushed brush (span_figure y start end) buf.old) }
{
    let window = brush.window;
    if !windows::is_between(y, window.top, window.bottom) {
        return before;
    }
    let from = windows::clip(start, window.left, window.right);
    let past = windows::clip(end, window.left, window.right);
    if past <= from {
        return before;
    }
    let sum = before + (past - from);
    paint_columns(buf, brush.frame, y as u32, from, past, brush.colour);
    sum
}

// Inside the library: the same of one row.
pub fn paint_span(buf: &mut [u8], brush: Brush, y: i32, start: i32, end: i32) -> u32
    requires { Ready brush (length buf.old) }
    ensures { (result, buf.new) ≡ brushed brush (span_figure y start end) buf.old }
{
    paint_more(buf, brush, y, start, end, 0)
}

// Rows without padding follow one another, and are one run.
fn fill_run(buf: &mut [u8], frame: Frame, colour: u32)
    requires { Drawable frame (length buf.old) colour × (frame.distance * 8 ≡ frame.width * frame.depth) }
    ensures { buf.new ≡ painted (raster frame) everywhere colour buf.old }
{
    let end = frames::frame_bytes(frame) as usize;
    if 0 < end {
        packing::fill_part(&mut buf[..end], frame.depth, frame.big, colour);
    }
}

fn fill_each_row(buf: &mut [u8], frame: Frame, colour: u32)
    requires { Drawable frame (length buf.old) colour × (0 < frame.width) }
    ensures { buf.new ≡ painted (raster frame) everywhere colour buf.old }
{
    for y in 0..frame.height {
        paint_columns(buf, frame, y, 0, frame.width, colour);
    }
}

// Inside the library: an accepted frame, as one run where it has no padding.
pub fn fill_frame(buf: &mut [u8], frame: Frame, colour: u32)
    requires { Drawable frame (length buf.old) colour }
    ensures { buf.new ≡ painted (raster frame) everywhere colour buf.old }
{
    if frame.distance * 8 == frame.width * frame.depth {
        fill_run(buf, frame, colour);
    } else if 0 < frame.width {
        fill_each_row(buf, frame, colour);
    }
}

// Inside the library: the rows of a rectangle of an accepted frame, and how many pixels these have.
pub fn fill_rows(buf: &mut [u8], brush: Brush) -> u32
    requires { Ready brush (length buf.old) }
    ensures { (result, buf.new) ≡ brushed brush everywhere buf.old }
{
    let frame = brush.frame;
    let window = brush.window;
    let width = frame.width as i32;
    let mut seen = 0u32;
    for y in window.top..window.bottom {
        seen = paint_more(buf, brush, y as i32, 0, width, seen);
    }
    seen
}
