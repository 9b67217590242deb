// Lines, connected lines and outlines by a brush, point by point: each sets the points that the brush's rectangle holds, and counts every pixel once.
#![tactic(auto)]

ghost use Rattle.std.specs.Prelude.{◌≡◌, true, ◌-◌, ◌≤◌, length, ◌≤ℤ◌};
ghost use Rattle.geometry.specs.Bound.{Bounded};
ghost use Rattle.painting.specs.Brush.{Ready, brushed};
ghost use Rattle.tracing.specs.Earlier.{Ends, earlier_figure, new_in};
ghost use Rattle.tracing.specs.Figure.{line_figure, connected_figure, outline_figure};

use geometry::Point;
use painting::Brush;

// The edges of an outline that are drawn already: a line, or two with a common end.
#[derive(Clone, Copy)]
enum Earlier {
    One(Point, Point),
    Two(Point, Point, Point),
}

impl Earlier {
    // Whether p is a point of one of them.
    fn has(self, p: Point) -> bool
        requires { Ends self }
        ensures { result ≡ earlier_figure self p.0 p.1 }
    {
        match self {
            Earlier::One(a, b) => line::meets(a, b, p),
            Earlier::Two(a, b, c) => line::meets(a, b, p) || line::meets(b, c, p),
        }
    }
}

// The points of an accepted edge, as far as the rectangle holds them; and how many of these are on no earlier edge.
fn draw_edge(buf: &mut [u8], brush: Brush, earlier: Earlier, start: Point, end: Point) -> u32
    requires { Ready brush (length buf.old) × Ends earlier × (Bounded start × Bounded end) }
    ensures { (result ≡ (brushed brush (new_in (earlier_figure earlier) (line_figure start end)) buf.old).0)
        × (buf.new ≡ (brushed brush (line_figure start end) buf.old).1) }
{
    let steps = clips::inner_steps(brush.window, start, end);
    if steps.is_empty() {
        return 0;
    }
    let mut walker = line::Walker::at(start, end, steps.start);
    let mut seen = 0;
    for _ in steps.start..steps.end {
        let stepped = walker.step();
        painting::set_point(buf, brush, stepped.point);
        seen += !earlier.has(stepped.point) as u32;
        walker = stepped.walker;
    }
    seen
}

// A level line is a span of its row.
fn draw_level(buf: &mut [u8], brush: Brush, start: Point, end: Point) -> u32
    requires { Ready brush (length buf.old) × (Bounded start × Bounded end) × (start.1 ≡ end.1) }
    ensures { (result, buf.new) ≡ brushed brush (line_figure start end) buf.old }
{
    let y = start.1;
    let row = triangle::bresenham_intersection(start, end, y);
    painting::paint_span(buf, brush, y, row.0, row.1)
}

// An upright line stays in its column: what goes by the column is worked out before the loop.
fn draw_upright(buf: &mut [u8], brush: Brush, start: Point, end: Point) -> u32
    requires { Ready brush (length buf.old) × (Bounded start × Bounded end) × (start.0 ≡ end.0) }
    ensures { (result, buf.new) ≡ brushed brush (line_figure start end) buf.old }
{
    let steps = clips::inner_steps(brush.window, start, end);
    if steps.is_empty() {
        return 0;
    }
    let on = line::direction(start.1, end.1);
    for k in steps.start..steps.end {
        painting::set_point(buf, brush, Point(start.0, start.1 + on * k as i32));
    }
    steps.end - steps.start
}

// Any other line goes by the walker. Of earlier edges, which `draw_edge` asks for, this loop knows nothing (docs/BENCHMARKS.md). The loops along a line name the ends of their range:
// with a `for` over the range itself this one took 1.08 times the instructions at depth 8.
fn draw_slanting(buf: &mut [u8], brush: Brush, start: Point, end: Point) -> u32
    requires { Ready brush (length buf.old) × (Bounded start × Bounded end) }
    ensures { (result, buf.new) ≡ brushed brush (line_figure start end) buf.old }
{
    let steps = clips::inner_steps(brush.window, start, end);
    if steps.is_empty() {
        return 0;
    }
    let mut walker = line::Walker::at(start, end, steps.start);
    for _ in steps.start..steps.end {
        let stepped = walker.step();
        painting::set_point(buf, brush, stepped.point);
        walker = stepped.walker;
    }
    steps.end - steps.start
}

// Inside the library: a line by itself: no edge comes before it.
pub fn draw_alone(buf: &mut [u8], brush: Brush, start: Point, end: Point) -> u32
    requires { Ready brush (length buf.old) × (Bounded start × Bounded end) }
    ensures { (result, buf.new) ≡ brushed brush (line_figure start end) buf.old }
{
    if start.1 == end.1 {
        return draw_level(buf, brush, start, end);
    }
    if start.0 == end.0 {
        return draw_upright(buf, brush, start, end);
    }
    draw_slanting(buf, brush, start, end)
}

// Inside the library: the points of an accepted connected line, as far as the rectangle holds them; and how many these are. No two are the same. An extra point may be in the rectangle
// where the step before it is not, so that the walk starts one step before the line's would.
pub fn draw_connected(buf: &mut [u8], brush: Brush, start: Point, end: Point) -> u32
    requires { Ready brush (length buf.old) × (Bounded start × Bounded end) }
    ensures { (result, buf.new) ≡ brushed brush (connected_figure start end) buf.old }
{
    let steps = clips::line_steps(brush.window, start, end);
    if steps.is_empty() {
        return 0;
    }
    let before = steps.start.saturating_sub(1);
    let first = connected::points_before(start, end, before);
    let past = connected::points_before(start, end, steps.end);
    let mut walker = connected::walker_at(start, end, before);
    let mut seen = 0;
    for _ in first..past {
        let next = connected::next_all(walker);
        seen += painting::put_point(buf, brush, next.point) as u32;
        walker = next.walker;
    }
    seen
}

// The level edge b to c behind the edge a to b, which runs down to it: a span, of which the columns that a to b has on its row are not new. These are painted first, and
// counted by that.
fn draw_level_after(buf: &mut [u8], brush: Brush, a: Point, b: Point, c: Point) -> u32
    requires { Ready brush (length buf.old) × (Bounded a × Bounded b × Bounded c) × (a.1 ≤ℤ b.1) × (b.1 ≡ c.1) }
    ensures { (result ≡ (brushed brush (new_in (line_figure a b) (line_figure b c)) buf.old).0)
        × (buf.new ≡ (brushed brush (line_figure b c) buf.old).1) }
{
    let y = b.1;
    let row = triangle::bresenham_intersection(b, c, y);
    let had = triangle::bresenham_intersection(a, b, y);
    let first = row.0.max(had.0);
    let past = row.1.min(had.1);
    let old = painting::paint_span(buf, brush, y, first, past);
    painting::paint_span(buf, brush, y, row.0, row.1) - old
}

// An outline's second edge, b to c, behind its first, a to b.
fn draw_second(buf: &mut [u8], brush: Brush, a: Point, b: Point, c: Point) -> u32
    requires { Ready brush (length buf.old) × (Bounded a × Bounded b × Bounded c) × (a.1 ≤ℤ b.1) }
    ensures { (result ≡ (brushed brush (new_in (line_figure a b) (line_figure b c)) buf.old).0)
        × (buf.new ≡ (brushed brush (line_figure b c) buf.old).1) }
{
    if b.1 == c.1 {
        return draw_level_after(buf, brush, a, b, c);
    }
    draw_edge(buf, brush, Earlier::One(a, b), b, c)
}

// Inside the library: the three sorted edges of an accepted outline, as far as the rectangle holds them; a pixel of two of them counts once. At zero area they are the longest of them.
pub fn draw_edges(buf: &mut [u8], brush: Brush, v1: Point, v2: Point, v3: Point) -> u32
    requires { Ready brush (length buf.old) × (Bounded v1 × Bounded v2 × Bounded v3) }
    ensures { (result, buf.new) ≡ brushed brush (outline_figure v1 v2 v3) buf.old }
{
    let t = triangle::sorted_yx(v1, v2, v3);
    if !triangle::is_solid(v1, v2, v3) {
        return draw_alone(buf, brush, t.p1, t.p3);
    }
    let of_first = draw_alone(buf, brush, t.p1, t.p2);
    let of_second = draw_second(buf, brush, t.p1, t.p2, t.p3);
    let both = Earlier::Two(t.p1, t.p2, t.p3);
    of_first + of_second + draw_edge(buf, brush, both, t.p1, t.p3)
}
