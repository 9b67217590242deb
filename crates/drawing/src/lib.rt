// Drawing calls into a lent buffer. Each judges its frame once, then its own arguments, and sets every pixel of the frame that its figure
// contains; its answer says how many these are. Calls on a frame that was judged already have `_on` in their name.
#![tactic(auto)]

ghost use Rattle.std.specs.Prelude.{◌≡◌, ◌-◌, length, OnOk};
ghost use Rattle.refusals.specs.Refusal.{as_number};
ghost use Rattle.geometry.specs.Bound.{Bounded};
ghost use Rattle.line.specs.Answer.{end_tests};
ghost use Rattle.triangle.specs.Answer.{vertex_tests};
ghost use Rattle.circle.specs.Refusal.{circle_tests, Fits};
ghost use Rattle.frames.specs.Answer.{as_drawn};
ghost use Rattle.frames.specs.Canvas.{number_on, on_canvas};
ghost use Rattle.frames.specs.Drawing.{pixel_drawing, outcome};
ghost use Rattle.frames.specs.Judged.{Judged, JudgedSome};
ghost use Rattle.drawing.specs.Drawing.{figure_drawing, line_drawing, connected_drawing, outline_drawing, triangle_drawing, circle_drawing};

use frames::{Canvas, Frame};
use geometry::Point;
use painting::Brush;
use refusals::Refusal;

// A figure that a call may draw.
#[derive(Clone, Copy)]
pub enum Figure {
    Fill,
    Pixel(Point),
    Line(Point, Point),
    Connected(Point, Point),
    Triangle(Point, Point, Point),
    Outline(Point, Point, Point),
    Circle(Point, u32),
}

// Whether a line may be drawn, connected or not.
#[tactic(auto, using(frames::proofs::Calls::first_on, frames::proofs::Calls::own_on))]
fn accept_line(canvas: Canvas, start: Point, end: Point, colour: u32) -> Result<(), Refusal>
    requires { JudgedSome canvas }
    ensures number { as_number result ≡ number_on canvas colour (end_tests start end) }
    ensures accepted { OnOk result (Bounded start × Bounded end) }
{
    frames::accept_colour(canvas, colour)?;
    line::accept(start, end)
}

// Inside the library: `draw_line` on a canvas.
pub fn line_on(
    buf: &mut [u8],
    canvas: Canvas,
    start: Point,
    end: Point,
    colour: u32,
) -> Result<u32, Refusal>
    requires { Judged canvas (length buf.old) }
    ensures { (as_drawn result, buf.new) ≡ on_canvas canvas (line_drawing start end colour) buf.old }
{
    accept_line(canvas, start, end, colour)?;
    Ok(tracing::draw_alone(buf, Brush::on(canvas, colour), start, end))
}

// Draws the line from start to end.
pub fn draw_line(
    buf: &mut [u8],
    frame: Frame,
    start: Point,
    end: Point,
    colour: u32,
) -> Result<u32, Refusal>
    ensures { (as_drawn result, buf.new) ≡ outcome frame (line_drawing start end colour) buf.old }
{
    line_on(buf, frame.over(buf.len()), start, end, colour)
}

// Inside the library: `draw_connected_line` on a canvas.
pub fn connected_line_on(
    buf: &mut [u8],
    canvas: Canvas,
    start: Point,
    end: Point,
    colour: u32,
) -> Result<u32, Refusal>
    requires { Judged canvas (length buf.old) }
    ensures { (as_drawn result, buf.new) ≡ on_canvas canvas (connected_drawing start end colour) buf.old }
{
    accept_line(canvas, start, end, colour)?;
    Ok(tracing::draw_connected(buf, Brush::on(canvas, colour), start, end))
}

// Draws the connected line from start to end.
pub fn draw_connected_line(
    buf: &mut [u8],
    frame: Frame,
    start: Point,
    end: Point,
    colour: u32,
) -> Result<u32, Refusal>
    ensures { (as_drawn result, buf.new) ≡ outcome frame (connected_drawing start end colour) buf.old }
{
    connected_line_on(buf, frame.over(buf.len()), start, end, colour)
}

// Whether a triangle or its outline may be drawn.
#[tactic(auto, using(frames::proofs::Calls::first_on, frames::proofs::Calls::own_on))]
fn accept_triangle(
    canvas: Canvas,
    v1: Point,
    v2: Point,
    v3: Point,
    colour: u32,
) -> Result<(), Refusal>
    requires { JudgedSome canvas }
    ensures number { as_number result ≡ number_on canvas colour (vertex_tests v1 v2 v3) }
    ensures accepted { OnOk result (Bounded v1 × Bounded v2 × Bounded v3) }
{
    frames::accept_colour(canvas, colour)?;
    triangle::accept(v1, v2, v3)
}

// Inside the library: `draw_outline` on a canvas.
pub fn outline_on(
    buf: &mut [u8],
    canvas: Canvas,
    v1: Point,
    v2: Point,
    v3: Point,
    colour: u32,
) -> Result<u32, Refusal>
    requires { Judged canvas (length buf.old) }
    ensures { (as_drawn result, buf.new) ≡ on_canvas canvas (outline_drawing v1 v2 v3 colour) buf.old }
{
    accept_triangle(canvas, v1, v2, v3, colour)?;
    Ok(tracing::draw_edges(buf, Brush::on(canvas, colour), v1, v2, v3))
}

// Draws the outline of a triangle: the edges that its fill uses, so that any order of the vertices draws the same, and no pixel but those that the filled
// triangle contains.
pub fn draw_outline(
    buf: &mut [u8],
    frame: Frame,
    v1: Point,
    v2: Point,
    v3: Point,
    colour: u32,
) -> Result<u32, Refusal>
    ensures { (as_drawn result, buf.new) ≡ outcome frame (outline_drawing v1 v2 v3 colour) buf.old }
{
    outline_on(buf, frame.over(buf.len()), v1, v2, v3, colour)
}

// Whether a circle may be drawn.
fn accept_circle(canvas: Canvas, topleft: Point, diameter: u32, colour: u32) -> Result<(), Refusal>
    requires { JudgedSome canvas }
    ensures number { as_number result ≡ number_on canvas colour (circle_tests topleft diameter) }
    ensures accepted { OnOk result (Fits topleft diameter) }
{
    frames::accept_colour(canvas, colour)?;
    circle::accept(topleft, diameter)
}

// Inside the library: `draw_circle` on a canvas. A circle that contains the whole rectangle fills it.
pub fn circle_on(
    buf: &mut [u8],
    canvas: Canvas,
    topleft: Point,
    diameter: u32,
    colour: u32,
) -> Result<u32, Refusal>
    requires { Judged canvas (length buf.old) }
    ensures { (as_drawn result, buf.new) ≡ on_canvas canvas (circle_drawing topleft diameter colour) buf.old }
{
    accept_circle(canvas, topleft, diameter, colour)?;
    let window = canvas.window;
    if !circle::accepted_covers(
        topleft,
        diameter,
        window.left,
        window.top,
        window.right,
        window.bottom,
    ) {
        return Ok(filling::fill_circle(buf, Brush::on(canvas, colour), topleft, diameter));
    }
    framebuffer::fill_on(buf, canvas, colour)
}

// Draws a filled circle.
pub fn draw_circle(
    buf: &mut [u8],
    frame: Frame,
    topleft: Point,
    diameter: u32,
    colour: u32,
) -> Result<u32, Refusal>
    ensures { (as_drawn result, buf.new) ≡ outcome frame (circle_drawing topleft diameter colour) buf.old }
{
    circle_on(buf, frame.over(buf.len()), topleft, diameter, colour)
}

// Inside the library: `draw_triangle` on a canvas.
pub fn triangle_on(
    buf: &mut [u8],
    canvas: Canvas,
    v1: Point,
    v2: Point,
    v3: Point,
    colour: u32,
) -> Result<u32, Refusal>
    requires { Judged canvas (length buf.old) }
    ensures { (as_drawn result, buf.new) ≡ on_canvas canvas (triangle_drawing v1 v2 v3 colour) buf.old }
{
    accept_triangle(canvas, v1, v2, v3, colour)?;
    Ok(filling::fill_triangle(buf, Brush::on(canvas, colour), v1, v2, v3))
}

// Draws a filled triangle.
pub fn draw_triangle(
    buf: &mut [u8],
    frame: Frame,
    v1: Point,
    v2: Point,
    v3: Point,
    colour: u32,
) -> Result<u32, Refusal>
    ensures { (as_drawn result, buf.new) ≡ outcome frame (triangle_drawing v1 v2 v3 colour) buf.old }
{
    triangle_on(buf, frame.over(buf.len()), v1, v2, v3, colour)
}

// A pixel, which counts once or not.
fn dot_on(buf: &mut [u8], canvas: Canvas, p: Point, colour: u32) -> Result<u32, Refusal>
    requires { Judged canvas (length buf.old) }
    ensures { (as_drawn result, buf.new) ≡ on_canvas canvas (pixel_drawing p colour) buf.old }
{
    let inside = framebuffer::set_pixel_on(buf, canvas, p, colour)?;
    Ok(inside as u32)
}

// Inside the library: the call that draws a figure, on a canvas. A new surface needs no other to draw on it; the calls above make theirs without the match, which costs more
// than a short line (docs/BENCHMARKS.md).
pub fn figure_on(
    buf: &mut [u8],
    canvas: Canvas,
    figure: Figure,
    colour: u32,
) -> Result<u32, Refusal>
    requires { Judged canvas (length buf.old) }
    ensures { (as_drawn result, buf.new) ≡ on_canvas canvas (figure_drawing figure colour) buf.old }
{
    match figure {
        Figure::Fill => framebuffer::fill_on(buf, canvas, colour),
        Figure::Pixel(p) => dot_on(buf, canvas, p, colour),
        Figure::Line(start, end) => line_on(buf, canvas, start, end, colour),
        Figure::Connected(start, end) => connected_line_on(buf, canvas, start, end, colour),
        Figure::Triangle(v1, v2, v3) => triangle_on(buf, canvas, v1, v2, v3, colour),
        Figure::Outline(v1, v2, v3) => outline_on(buf, canvas, v1, v2, v3, colour),
        Figure::Circle(topleft, diameter) => circle_on(buf, canvas, topleft, diameter, colour),
    }
}
