// Triangles and circles by a brush, row by row: each paints the columns that the brush's rectangle holds, and counts them.
#![tactic(auto)]

ghost use Rattle.std.specs.Prelude.{◌≡◌, true, ◌-◌, length};
ghost use Rattle.geometry.specs.Bound.{Bounded};
ghost use Rattle.circle.specs.Refusal.{Fits};
ghost use Rattle.windows.specs.Interval.{Held};
ghost use Rattle.painting.specs.Brush.{Ready, brushed};
ghost use Rattle.filling.specs.Figure.{triangle_figure, circle_figure};

use geometry::Point;
use painting::Brush;
use std::ops::Range;

// The rows of an accepted circle that the rectangle has, as far as it holds them; and how many pixels these have. It reads nothing of the brush, so that the compiler
// lays it out once and not at every row (docs/BENCHMARKS.md).
fn fill_circle_rows(
    buf: &mut [u8],
    brush: Brush,
    topleft: Point,
    diameter: u32,
    rows: Range<u32>,
) -> u32
    requires { Ready brush (length buf.old) × Fits topleft diameter × Held topleft.1 true brush.window.top brush.window.bottom diameter rows }
    ensures { (result, buf.new) ≡ brushed brush (circle_figure topleft diameter) buf.old }
{
    let mut seen = 0;
    for k in rows {
        let y = topleft.1 + k as i32;
        let row = circle::box_row_span(topleft, diameter, y);
        seen = painting::paint_more(buf, brush, y, row.0, row.1, seen);
    }
    seen
}

// Inside the library: an accepted circle, as far as the rectangle holds it; and how many pixels that are.
pub fn fill_circle(buf: &mut [u8], brush: Brush, topleft: Point, diameter: u32) -> u32
    requires { Ready brush (length buf.old) × Fits topleft diameter }
    ensures { (result, buf.new) ≡ brushed brush (circle_figure topleft diameter) buf.old }
{
    let window = brush.window;
    let rows = windows::held(topleft.1, true, window.top, window.bottom, diameter);
    fill_circle_rows(buf, brush, topleft, diameter, rows)
}

// Inside the library: the rows of an accepted triangle from the top down, each from the walks along its edges, as far as the rectangle holds them; and how many pixels these
// have.
pub fn fill_triangle(buf: &mut [u8], brush: Brush, v1: Point, v2: Point, v3: Point) -> u32
    requires { Ready brush (length buf.old) × (Bounded v1 × Bounded v2 × Bounded v3) }
    ensures { (result, buf.new) ≡ brushed brush (triangle_figure v1 v2 v3) buf.old }
{
    let t = triangle::sorted_yx(v1, v2, v3);
    let mut walk = edges::Walk::new(t, triangle::is_solid(v1, v2, v3));
    let mut seen = 0;
    for y in t.p1.1..=t.p3.1 {
        let row = walk.row(y);
        seen = painting::paint_more(buf, brush, y, row.low, row.high + 1, seen);
        walk = row.walk;
    }
    seen
}
