// The static library: the public operations for callers in C and Rust, under their names and by the C calling convention. Each only hands on to the function of
// `beamacorn` that has its name, and promises what that promises. bindings/c/beamacorn.h says what a caller needs to know.
#![tactic(auto)]

ghost use Rattle.std.specs.Prelude.{◌≡◌};
ghost use Rattle.refusals.specs.First.{first};
ghost use Rattle.geometry.specs.Answer.{verdict, span};
ghost use Rattle.line.specs.Line.{points, point_at, has_point};
ghost use Rattle.line.specs.Answer.{end_tests, step_tests, length_answer, step_answer};
ghost use Rattle.connected.specs.Connected.{connected_points, connected_at, has_connected};
ghost use Rattle.connected.specs.Answer.{index_tests};
ghost use Rattle.triangle.specs.Triangle as triangle;
ghost use Rattle.triangle.specs.Row.{row_span, first_row, row_count};
ghost use Rattle.triangle.specs.Answer.{vertex_tests, rows_answer};
ghost use Rattle.circle.specs.Circle as circle;
ghost use Rattle.circle.specs.Refusal.{circle_tests};
ghost use Rattle.frames.specs.Answer.{sized};
ghost use Rattle.frames.specs.Description.{size, description_tests};
ghost use Rattle.frames.specs.Drawing.{fill_drawing};
ghost use Rattle.drawing.specs.Drawing.{line_drawing, connected_drawing, outline_drawing, triangle_drawing, circle_drawing};
ghost use Rattle.netpbm.specs.Image.{image_length};
ghost use Rattle.netpbm.specs.Written.{image_size_tests, written};
ghost use Rattle.netpbm.specs.Reading.{loaded};
ghost use Rattle.beamacorn.specs.Plain.{frame_of, plain_step, outcome_on, placed_on, pixel_on, lit_on};

use beamacorn::Step;
use frames::Drawn;

// ---- questions

// The number of points of the line from (x1, y1) to (x2, y2).
#[unsafe(no_mangle)]
pub extern "C" fn beamacorn_line_length(x1: i32, y1: i32, x2: i32, y2: i32) -> line::Length
    ensures { result ≡ length_answer (first (end_tests (x1, y1) (x2, y2))) (points (x1, y1) (x2, y2)) }
{
    beamacorn::beamacorn_line_length(x1, y1, x2, y2)
}

// The point of the line at a step, the start being step 0.
#[unsafe(no_mangle)]
pub extern "C" fn beamacorn_line_point(x1: i32, y1: i32, x2: i32, y2: i32, step: u32) -> Step
    ensures { result ≡ plain_step (step_answer (first (step_tests (x1, y1) (x2, y2) step)) (point_at (x1, y1) (x2, y2) step)) }
{
    beamacorn::beamacorn_line_point(x1, y1, x2, y2, step)
}

// Whether (x, y) is a point of the line.
#[unsafe(no_mangle)]
pub extern "C" fn beamacorn_line_has_point(
    x1: i32,
    y1: i32,
    x2: i32,
    y2: i32,
    x: i32,
    y: i32,
) -> geometry::Verdict
    ensures { result ≡ verdict (first (end_tests (x1, y1) (x2, y2))) (has_point (x1, y1) (x2, y2) (x, y)) }
{
    beamacorn::beamacorn_line_has_point(x1, y1, x2, y2, x, y)
}

// The number of points of the connected line from (x1, y1) to (x2, y2).
#[unsafe(no_mangle)]
pub extern "C" fn beamacorn_connected_length(x1: i32, y1: i32, x2: i32, y2: i32) -> line::Length
    ensures { result ≡ length_answer (first (end_tests (x1, y1) (x2, y2))) (connected_points (x1, y1) (x2, y2)) }
{
    beamacorn::beamacorn_connected_length(x1, y1, x2, y2)
}

// The point of the connected line at an index, the start having index 0.
#[unsafe(no_mangle)]
pub extern "C" fn beamacorn_connected_point(x1: i32, y1: i32, x2: i32, y2: i32, index: u32) -> Step
    ensures { result ≡ plain_step (step_answer (first (index_tests (x1, y1) (x2, y2) index)) (connected_at (x1, y1) (x2, y2) index)) }
{
    beamacorn::beamacorn_connected_point(x1, y1, x2, y2, index)
}

// Whether (x, y) is a point of the connected line.
#[unsafe(no_mangle)]
pub extern "C" fn beamacorn_connected_has_point(
    x1: i32,
    y1: i32,
    x2: i32,
    y2: i32,
    x: i32,
    y: i32,
) -> geometry::Verdict
    ensures { result ≡ verdict (first (end_tests (x1, y1) (x2, y2))) (has_connected (x1, y1) (x2, y2) (x, y)) }
{
    beamacorn::beamacorn_connected_has_point(x1, y1, x2, y2, x, y)
}

// Whether the triangle contains (x, y).
#[unsafe(no_mangle)]
pub extern "C" fn beamacorn_triangle_contains(
    x1: i32,
    y1: i32,
    x2: i32,
    y2: i32,
    x3: i32,
    y3: i32,
    x: i32,
    y: i32,
) -> geometry::Verdict
    ensures { result ≡ verdict (first (vertex_tests (x1, y1) (x2, y2) (x3, y3))) (triangle.contained (x1, y1) (x2, y2) (x3, y3) (x, y)) }
{
    beamacorn::beamacorn_triangle_contains(x1, y1, x2, y2, x3, y3, x, y)
}

// The triangle's first row, and how many it has.
#[unsafe(no_mangle)]
pub extern "C" fn beamacorn_triangle_rows(
    x1: i32,
    y1: i32,
    x2: i32,
    y2: i32,
    x3: i32,
    y3: i32,
) -> triangle::RowRange
    ensures { result ≡ rows_answer (first (vertex_tests (x1, y1) (x2, y2) (x3, y3))) (first_row (x1, y1) (x2, y2) (x3, y3)) (row_count (x1, y1) (x2, y2) (x3, y3)) }
{
    beamacorn::beamacorn_triangle_rows(x1, y1, x2, y2, x3, y3)
}

// The columns of row y that the triangle contains.
#[unsafe(no_mangle)]
pub extern "C" fn beamacorn_triangle_row_span(
    x1: i32,
    y1: i32,
    x2: i32,
    y2: i32,
    x3: i32,
    y3: i32,
    y: i32,
) -> geometry::Span
    ensures { result ≡ span (first (vertex_tests (x1, y1) (x2, y2) (x3, y3))) (row_span (x1, y1) (x2, y2) (x3, y3) y).0 (row_span (x1, y1) (x2, y2) (x3, y3) y).1 }
{
    beamacorn::beamacorn_triangle_row_span(x1, y1, x2, y2, x3, y3, y)
}

// Whether the circle contains (x, y).
#[unsafe(no_mangle)]
pub extern "C" fn beamacorn_circle_contains(
    left: i32,
    top: i32,
    diameter: u32,
    x: i32,
    y: i32,
) -> geometry::Verdict
    ensures { result ≡ verdict (first (circle_tests (left, top) diameter)) (circle.contained (left, top) diameter (x, y)) }
{
    beamacorn::beamacorn_circle_contains(left, top, diameter, x, y)
}

// The columns of row y that the circle contains.
#[unsafe(no_mangle)]
pub extern "C" fn beamacorn_circle_row_span(
    left: i32,
    top: i32,
    diameter: u32,
    y: i32,
) -> geometry::Span
    ensures { result ≡ span (first (circle_tests (left, top) diameter)) (circle.span_start (left, top) diameter y) (circle.span_end (left, top) diameter y) }
{
    beamacorn::beamacorn_circle_row_span(left, top, diameter, y)
}

// ---- frames and drawing

// The bytes that a buffer for the frame must have.
#[unsafe(no_mangle)]
pub extern "C" fn beamacorn_frame_size(
    width: u32,
    height: u32,
    depth: u32,
    distance: u32,
) -> frames::Size
    ensures { result ≡ sized (first (description_tests (frame_of width height depth 0 distance))) (size (frame_of width height depth 0 distance)) }
{
    beamacorn::beamacorn_frame_size(width, height, depth, distance)
}

// The pixel at (x, y) gets the colour; outside the frame nothing changes, and the answer says so.
#[unsafe(no_mangle)]
pub extern "C" fn beamacorn_set_pixel(
    buf: &mut [u8],
    width: u32,
    height: u32,
    depth: u32,
    order: u32,
    distance: u32,
    x: i32,
    y: i32,
    colour: u32,
) -> frames::Placed
    ensures { (result, buf.new) ≡ placed_on width height depth order distance (x, y) colour buf.old }
{
    beamacorn::beamacorn_set_pixel(buf, width, height, depth, order, distance, x, y, colour)
}

// The colour of the pixel at (x, y).
#[unsafe(no_mangle)]
pub extern "C" fn beamacorn_pixel(
    buf: &[u8],
    width: u32,
    height: u32,
    depth: u32,
    order: u32,
    distance: u32,
    x: i32,
    y: i32,
) -> frames::Read
    ensures { result ≡ pixel_on width height depth order distance (x, y) buf.now }
{
    beamacorn::beamacorn_pixel(buf, width, height, depth, order, distance, x, y)
}

// Every pixel of the frame gets the colour.
#[unsafe(no_mangle)]
pub extern "C" fn beamacorn_fill(
    buf: &mut [u8],
    width: u32,
    height: u32,
    depth: u32,
    order: u32,
    distance: u32,
    colour: u32,
) -> Drawn
    ensures { (result, buf.new) ≡ outcome_on width height depth order distance (fill_drawing colour) buf.old }
{
    beamacorn::beamacorn_fill(buf, width, height, depth, order, distance, colour)
}

// Draws the line from (x1, y1) to (x2, y2).
#[unsafe(no_mangle)]
pub extern "C" fn beamacorn_draw_line(
    buf: &mut [u8],
    width: u32,
    height: u32,
    depth: u32,
    order: u32,
    distance: u32,
    x1: i32,
    y1: i32,
    x2: i32,
    y2: i32,
    colour: u32,
) -> Drawn
    ensures { (result, buf.new) ≡ outcome_on width height depth order distance (line_drawing (x1, y1) (x2, y2) colour) buf.old }
{
    beamacorn::beamacorn_draw_line(
        buf, width, height, depth, order, distance, x1, y1, x2, y2, colour,
    )
}

// Draws the connected line from (x1, y1) to (x2, y2).
#[unsafe(no_mangle)]
pub extern "C" fn beamacorn_draw_connected_line(
    buf: &mut [u8],
    width: u32,
    height: u32,
    depth: u32,
    order: u32,
    distance: u32,
    x1: i32,
    y1: i32,
    x2: i32,
    y2: i32,
    colour: u32,
) -> Drawn
    ensures { (result, buf.new) ≡ outcome_on width height depth order distance (connected_drawing (x1, y1) (x2, y2) colour) buf.old }
{
    beamacorn::beamacorn_draw_connected_line(
        buf, width, height, depth, order, distance, x1, y1, x2, y2, colour,
    )
}

// Draws the filled triangle.
#[unsafe(no_mangle)]
pub extern "C" fn beamacorn_draw_triangle(
    buf: &mut [u8],
    width: u32,
    height: u32,
    depth: u32,
    order: u32,
    distance: u32,
    x1: i32,
    y1: i32,
    x2: i32,
    y2: i32,
    x3: i32,
    y3: i32,
    colour: u32,
) -> Drawn
    ensures { (result, buf.new) ≡ outcome_on width height depth order distance (triangle_drawing (x1, y1) (x2, y2) (x3, y3) colour) buf.old }
{
    beamacorn::beamacorn_draw_triangle(
        buf, width, height, depth, order, distance, x1, y1, x2, y2, x3, y3, colour,
    )
}

// Draws the triangle's outline.
#[unsafe(no_mangle)]
pub extern "C" fn beamacorn_draw_outline(
    buf: &mut [u8],
    width: u32,
    height: u32,
    depth: u32,
    order: u32,
    distance: u32,
    x1: i32,
    y1: i32,
    x2: i32,
    y2: i32,
    x3: i32,
    y3: i32,
    colour: u32,
) -> Drawn
    ensures { (result, buf.new) ≡ outcome_on width height depth order distance (outline_drawing (x1, y1) (x2, y2) (x3, y3) colour) buf.old }
{
    beamacorn::beamacorn_draw_outline(
        buf, width, height, depth, order, distance, x1, y1, x2, y2, x3, y3, colour,
    )
}

// Draws the filled circle.
#[unsafe(no_mangle)]
pub extern "C" fn beamacorn_draw_circle(
    buf: &mut [u8],
    width: u32,
    height: u32,
    depth: u32,
    order: u32,
    distance: u32,
    left: i32,
    top: i32,
    diameter: u32,
    colour: u32,
) -> Drawn
    ensures { (result, buf.new) ≡ outcome_on width height depth order distance (circle_drawing (left, top) diameter colour) buf.old }
{
    beamacorn::beamacorn_draw_circle(
        buf, width, height, depth, order, distance, left, top, diameter, colour,
    )
}

// How many pixels of a one-bit frame have colour 1.
#[unsafe(no_mangle)]
pub extern "C" fn beamacorn_lit(
    buf: &[u8],
    width: u32,
    height: u32,
    depth: u32,
    order: u32,
    distance: u32,
) -> lights::Lights
    ensures { result ≡ lit_on width height depth order distance buf.now }
{
    beamacorn::beamacorn_lit(buf, width, height, depth, order, distance)
}

// ---- image files

// The bytes that the image file of a frame takes.
#[unsafe(no_mangle)]
pub extern "C" fn beamacorn_image_size(
    width: u32,
    height: u32,
    depth: u32,
    distance: u32,
) -> frames::Size
    ensures { result ≡ sized (first (image_size_tests (frame_of width height depth 0 distance))) (image_length (frame_of width height depth 0 distance)) }
{
    beamacorn::beamacorn_image_size(width, height, depth, distance)
}

// Writes the frame as an image file into the output, from its first byte on, and answers how many bytes that were.
#[unsafe(no_mangle)]
pub extern "C" fn beamacorn_write_image(
    buf: &[u8],
    width: u32,
    height: u32,
    depth: u32,
    order: u32,
    distance: u32,
    out: &mut [u8],
) -> frames::Size
    ensures { (result, out.new) ≡ written (frame_of width height depth order distance) buf.now out.old }
{
    beamacorn::beamacorn_write_image(buf, width, height, depth, order, distance, out)
}

// Reads an image file of the frame's size into the frame, and answers a number.
#[unsafe(no_mangle)]
pub extern "C" fn beamacorn_read_image(
    buf: &mut [u8],
    width: u32,
    height: u32,
    depth: u32,
    order: u32,
    distance: u32,
    file: &[u8],
) -> u32
    ensures { (result, buf.new) ≡ loaded (frame_of width height depth order distance) file.now buf.old }
{
    beamacorn::beamacorn_read_image(buf, width, height, depth, order, distance, file)
}
