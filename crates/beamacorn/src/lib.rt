// The public operations for callers in C and Rust, in plain numbers and bytes. Each only hands on. The crate `beamacorn_c` exports them, and
// bindings/c/beamacorn.h says what a caller needs to know.
#![tactic(auto)]

mod handed;

ghost use Rattle.std.specs.Prelude.{◌≡◌};
ghost use Rattle.refusals.specs.First.{first};
ghost use Rattle.geometry.specs.Answer.{verdict, span};
ghost use Rattle.line.specs.Line.{points, point_at, has_point};
ghost use Rattle.line.specs.Answer.{end_tests, step_tests, length_answer, step_answer};
ghost use Rattle.connected.specs.Connected.{connected_points, connected_at, has_connected};
ghost use Rattle.connected.specs.Answer.{index_tests};
ghost use Rattle.triangle.specs.Triangle as triangle;
ghost use Rattle.triangle.specs.Row.{row_span, first_row, row_count};
ghost use Rattle.triangle.specs.Answer.{vertex_tests, rows_answer};
ghost use Rattle.circle.specs.Circle as circle;
ghost use Rattle.circle.specs.Refusal.{circle_tests};
ghost use Rattle.frames.specs.Answer.{sized};
ghost use Rattle.frames.specs.Description.{size, description_tests};
ghost use Rattle.frames.specs.Drawing.{fill_drawing};
ghost use Rattle.drawing.specs.Drawing.{line_drawing, connected_drawing, outline_drawing, triangle_drawing, circle_drawing};
ghost use Rattle.netpbm.specs.Image.{image_length};
ghost use Rattle.netpbm.specs.Written.{image_size_tests, written};
ghost use Rattle.netpbm.specs.Reading.{loaded};
ghost use Rattle.beamacorn.specs.Plain.{frame_of, plain_step, outcome_on, placed_on, pixel_on, lit_on};

use frames::{Drawn, Frame};
use geometry::Point;
use handed::number;

// A line's point at a step, or a connected line's at an index. With a refusal its number, and 0 and 0.
#[repr(C)]
#[derive(Clone, Copy)]
pub struct Step {
    pub number: u32,
    pub x: i32,
    pub y: i32,
}

// ---- questions

// The number of points of the line from (x1, y1) to (x2, y2).
pub fn beamacorn_line_length(x1: i32, y1: i32, x2: i32, y2: i32) -> line::Length
    ensures { result ≡ length_answer (first (end_tests (x1, y1) (x2, y2))) (points (x1, y1) (x2, y2)) }
{
    line::major_length(Point(x1, y1), Point(x2, y2)).into()
}

// The point of the line at a step, the start being step 0.
pub fn beamacorn_line_point(x1: i32, y1: i32, x2: i32, y2: i32, step: u32) -> Step
    ensures { result ≡ plain_step (step_answer (first (step_tests (x1, y1) (x2, y2) step)) (point_at (x1, y1) (x2, y2) step)) }
{
    line::point(Point(x1, y1), Point(x2, y2), step).into()
}

// Whether (x, y) is a point of the line.
pub fn beamacorn_line_has_point(
    x1: i32,
    y1: i32,
    x2: i32,
    y2: i32,
    x: i32,
    y: i32,
) -> geometry::Verdict
    ensures { result ≡ verdict (first (end_tests (x1, y1) (x2, y2))) (has_point (x1, y1) (x2, y2) (x, y)) }
{
    line::has_point(Point(x1, y1), Point(x2, y2), Point(x, y)).into()
}

// The number of points of the connected line from (x1, y1) to (x2, y2).
pub fn beamacorn_connected_length(x1: i32, y1: i32, x2: i32, y2: i32) -> line::Length
    ensures { result ≡ length_answer (first (end_tests (x1, y1) (x2, y2))) (connected_points (x1, y1) (x2, y2)) }
{
    connected::length(Point(x1, y1), Point(x2, y2)).into()
}

// The point of the connected line at an index, the start having index 0.
pub fn beamacorn_connected_point(x1: i32, y1: i32, x2: i32, y2: i32, index: u32) -> Step
    ensures { result ≡ plain_step (step_answer (first (index_tests (x1, y1) (x2, y2) index)) (connected_at (x1, y1) (x2, y2) index)) }
{
    connected::point(Point(x1, y1), Point(x2, y2), index).into()
}

// Whether (x, y) is a point of the connected line.
pub fn beamacorn_connected_has_point(
    x1: i32,
    y1: i32,
    x2: i32,
    y2: i32,
    x: i32,
    y: i32,
) -> geometry::Verdict
    ensures { result ≡ verdict (first (end_tests (x1, y1) (x2, y2))) (has_connected (x1, y1) (x2, y2) (x, y)) }
{
    connected::has_point(Point(x1, y1), Point(x2, y2), Point(x, y)).into()
}

// Whether the triangle contains (x, y).
pub fn beamacorn_triangle_contains(
    x1: i32,
    y1: i32,
    x2: i32,
    y2: i32,
    x3: i32,
    y3: i32,
    x: i32,
    y: i32,
) -> geometry::Verdict
    ensures { result ≡ verdict (first (vertex_tests (x1, y1) (x2, y2) (x3, y3))) (triangle.contained (x1, y1) (x2, y2) (x3, y3) (x, y)) }
{
    triangle::contains(Point(x1, y1), Point(x2, y2), Point(x3, y3), Point(x, y)).into()
}

// The triangle's first row, and how many it has.
pub fn beamacorn_triangle_rows(
    x1: i32,
    y1: i32,
    x2: i32,
    y2: i32,
    x3: i32,
    y3: i32,
) -> triangle::RowRange
    ensures { result ≡ rows_answer (first (vertex_tests (x1, y1) (x2, y2) (x3, y3))) (first_row (x1, y1) (x2, y2) (x3, y3)) (row_count (x1, y1) (x2, y2) (x3, y3)) }
{
    triangle::rows(Point(x1, y1), Point(x2, y2), Point(x3, y3)).into()
}

// The columns of row y that the triangle contains.
pub fn beamacorn_triangle_row_span(
    x1: i32,
    y1: i32,
    x2: i32,
    y2: i32,
    x3: i32,
    y3: i32,
    y: i32,
) -> geometry::Span
    ensures { result ≡ span (first (vertex_tests (x1, y1) (x2, y2) (x3, y3))) (row_span (x1, y1) (x2, y2) (x3, y3) y).0 (row_span (x1, y1) (x2, y2) (x3, y3) y).1 }
{
    triangle::row_span(Point(x1, y1), Point(x2, y2), Point(x3, y3), y).into()
}

// Whether the circle contains (x, y).
pub fn beamacorn_circle_contains(
    left: i32,
    top: i32,
    diameter: u32,
    x: i32,
    y: i32,
) -> geometry::Verdict
    ensures { result ≡ verdict (first (circle_tests (left, top) diameter)) (circle.contained (left, top) diameter (x, y)) }
{
    circle::contains(Point(left, top), diameter, Point(x, y)).into()
}

// The columns of row y that the circle contains.
pub fn beamacorn_circle_row_span(left: i32, top: i32, diameter: u32, y: i32) -> geometry::Span
    ensures { result ≡ span (first (circle_tests (left, top) diameter)) (circle.span_start (left, top) diameter y) (circle.span_end (left, top) diameter y) }
{
    circle::row_span(Point(left, top), diameter, y).into()
}

// ---- frames and drawing

// The description of a frame. The order is 0 where the little end comes first; anything else says that the big end does.
fn frame(width: u32, height: u32, depth: u32, order: u32, distance: u32) -> Frame
    ensures { result ≡ frame_of width height depth order distance }
{
    Frame::new(width, height, depth, order != 0, distance)
}

// The bytes that a buffer for the frame must have.
pub fn beamacorn_frame_size(width: u32, height: u32, depth: u32, distance: u32) -> frames::Size
    ensures { result ≡ sized (first (description_tests (frame_of width height depth 0 distance))) (size (frame_of width height depth 0 distance)) }
{
    framebuffer::buffer_size_bpp(frame(width, height, depth, 0, distance)).into()
}

// The pixel at (x, y) gets the colour; outside the frame nothing changes, and the answer says so.
pub fn beamacorn_set_pixel(
    buf: &mut [u8],
    width: u32,
    height: u32,
    depth: u32,
    order: u32,
    distance: u32,
    x: i32,
    y: i32,
    colour: u32,
) -> frames::Placed
    ensures { (result, buf.new) ≡ placed_on width height depth order distance (x, y) colour buf.old }
{
    framebuffer::set_pixel(
        buf,
        frame(width, height, depth, order, distance),
        Point(x, y),
        colour,
    )
    .into()
}

// The colour of the pixel at (x, y).
pub fn beamacorn_pixel(
    buf: &[u8],
    width: u32,
    height: u32,
    depth: u32,
    order: u32,
    distance: u32,
    x: i32,
    y: i32,
) -> frames::Read
    ensures { result ≡ pixel_on width height depth order distance (x, y) buf.now }
{
    framebuffer::pixel(
        buf,
        frame(width, height, depth, order, distance),
        Point(x, y),
    )
    .into()
}

// Every pixel of the frame gets the colour.
pub fn beamacorn_fill(
    buf: &mut [u8],
    width: u32,
    height: u32,
    depth: u32,
    order: u32,
    distance: u32,
    colour: u32,
) -> Drawn
    ensures { (result, buf.new) ≡ outcome_on width height depth order distance (fill_drawing colour) buf.old }
{
    framebuffer::fill(buf, frame(width, height, depth, order, distance), colour).into()
}

// Draws the line from (x1, y1) to (x2, y2).
pub fn beamacorn_draw_line(
    buf: &mut [u8],
    width: u32,
    height: u32,
    depth: u32,
    order: u32,
    distance: u32,
    x1: i32,
    y1: i32,
    x2: i32,
    y2: i32,
    colour: u32,
) -> Drawn
    ensures { (result, buf.new) ≡ outcome_on width height depth order distance (line_drawing (x1, y1) (x2, y2) colour) buf.old }
{
    drawing::draw_line(
        buf,
        frame(width, height, depth, order, distance),
        Point(x1, y1),
        Point(x2, y2),
        colour,
    )
    .into()
}

// Draws the connected line from (x1, y1) to (x2, y2).
pub fn beamacorn_draw_connected_line(
    buf: &mut [u8],
    width: u32,
    height: u32,
    depth: u32,
    order: u32,
    distance: u32,
    x1: i32,
    y1: i32,
    x2: i32,
    y2: i32,
    colour: u32,
) -> Drawn
    ensures { (result, buf.new) ≡ outcome_on width height depth order distance (connected_drawing (x1, y1) (x2, y2) colour) buf.old }
{
    drawing::draw_connected_line(
        buf,
        frame(width, height, depth, order, distance),
        Point(x1, y1),
        Point(x2, y2),
        colour,
    )
    .into()
}

// Draws the filled triangle.
pub fn beamacorn_draw_triangle(
    buf: &mut [u8],
    width: u32,
    height: u32,
    depth: u32,
    order: u32,
    distance: u32,
    x1: i32,
    y1: i32,
    x2: i32,
    y2: i32,
    x3: i32,
    y3: i32,
    colour: u32,
) -> Drawn
    ensures { (result, buf.new) ≡ outcome_on width height depth order distance (triangle_drawing (x1, y1) (x2, y2) (x3, y3) colour) buf.old }
{
    drawing::draw_triangle(
        buf,
        frame(width, height, depth, order, distance),
        Point(x1, y1),
        Point(x2, y2),
        Point(x3, y3),
        colour,
    )
    .into()
}

// Draws the triangle's outline.
pub fn beamacorn_draw_outline(
    buf: &mut [u8],
    width: u32,
    height: u32,
    depth: u32,
    order: u32,
    distance: u32,
    x1: i32,
    y1: i32,
    x2: i32,
    y2: i32,
    x3: i32,
    y3: i32,
    colour: u32,
) -> Drawn
    ensures { (result, buf.new) ≡ outcome_on width height depth order distance (outline_drawing (x1, y1) (x2, y2) (x3, y3) colour) buf.old }
{
    drawing::draw_outline(
        buf,
        frame(width, height, depth, order, distance),
        Point(x1, y1),
        Point(x2, y2),
        Point(x3, y3),
        colour,
    )
    .into()
}

// Draws the filled circle.
pub fn beamacorn_draw_circle(
    buf: &mut [u8],
    width: u32,
    height: u32,
    depth: u32,
    order: u32,
    distance: u32,
    left: i32,
    top: i32,
    diameter: u32,
    colour: u32,
) -> Drawn
    ensures { (result, buf.new) ≡ outcome_on width height depth order distance (circle_drawing (left, top) diameter colour) buf.old }
{
    drawing::draw_circle(
        buf,
        frame(width, height, depth, order, distance),
        Point(left, top),
        diameter,
        colour,
    )
    .into()
}

// How many pixels of a one-bit frame have colour 1.
pub fn beamacorn_lit(
    buf: &[u8],
    width: u32,
    height: u32,
    depth: u32,
    order: u32,
    distance: u32,
) -> lights::Lights
    ensures { result ≡ lit_on width height depth order distance buf.now }
{
    lights::lit(buf, frame(width, height, depth, order, distance)).into()
}

// ---- image files

// The bytes that the image file of a frame takes.
pub fn beamacorn_image_size(width: u32, height: u32, depth: u32, distance: u32) -> frames::Size
    ensures { result ≡ sized (first (image_size_tests (frame_of width height depth 0 distance))) (image_length (frame_of width height depth 0 distance)) }
{
    netpbm::image_size(frame(width, height, depth, 0, distance)).into()
}

// Writes the frame as an image file into the output, from its first byte on, and answers how many bytes that were.
pub fn beamacorn_write_image(
    buf: &[u8],
    width: u32,
    height: u32,
    depth: u32,
    order: u32,
    distance: u32,
    out: &mut [u8],
) -> frames::Size
    ensures { (result, out.new) ≡ written (frame_of width height depth order distance) buf.now out.old }
{
    netpbm::write_image(buf, frame(width, height, depth, order, distance), out).into()
}

// Reads an image file of the frame's size into the frame, and answers a number.
pub fn beamacorn_read_image(
    buf: &mut [u8],
    width: u32,
    height: u32,
    depth: u32,
    order: u32,
    distance: u32,
    file: &[u8],
) -> u32
    ensures { (result, buf.new) ≡ loaded (frame_of width height depth order distance) file.now buf.old }
{
    number(netpbm::read_image(buf, frame(width, height, depth, order, distance), file))
}
