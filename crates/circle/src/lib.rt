// Circles: whether one contains a pixel, and the span of a row. Pixel places are `Point`, half_pixel places `Doubled`; the one becomes the other
// in `place_2x` and `center_2x` alone.
#![tactic(auto)]

mod root;

ghost use Rattle.std.specs.Prelude.{◌≡◌, true, ◌≤◌, nat_abs, pos, ◌-ℤ◌, OnOk};
ghost use Rattle.refusals.specs.First.{first};
ghost use Rattle.refusals.specs.Refusal.{as_number};
ghost use Rattle.geometry.specs.Answer.{verdict, as_verdict, span, as_span};
ghost use Rattle.circle.specs.Circle.{centre, threshold_of, doubled, squared_distance, contained, box_row, in_box, lead_of, span_start, span_end};
ghost use Rattle.circle.specs.Corners.{corners};
ghost use Rattle.circle.specs.Refusal.{circle_tests, Fits};

use geometry::{Columns, Doubled, Point};
use refusals::Refusal;

// The circle's centre, in half_pixel units since it lies between pixels where the diameter is even. For the diameter 0, which contains
// nothing, it is 2l - 1, 2t - 1 by the rule, and 2l, 2t in the Rust.
fn center_2x(topleft: Point, diameter: u32) -> Doubled
    ensures { result ≡ centre topleft diameter }
{
    let left = topleft.0 as i64;
    let top = topleft.1 as i64;
    let side = diameter as i64;
    Doubled(2 * left + side - 1, 2 * top + side - 1)
}

// The pixel's place, in half_pixel units.
fn place_2x(p: Point) -> Doubled
    ensures { result ≡ doubled p }
{
    let x = p.0 as i64;
    let y = p.1 as i64;
    Doubled(2 * x, 2 * y)
}

// The squared distance from the centre that a contained pixel stays below. Up to 4 it is less than the square, or the corners would be in.
fn threshold(diameter: u32) -> u64
    ensures { result ≡ threshold_of diameter }
{
    let d = diameter as u64;
    let square = d * d;
    if d <= 4 { square - d / 2 } else { square }
}

// Inside the library: whether a circle is accepted; it is refused where its top-left is out of bounds, and then where its box ends too far.
pub fn accept(topleft: Point, diameter: u32) -> Result<(), Refusal>
    ensures number { as_number result ≡ first (circle_tests topleft diameter) }
    ensures accepted { OnOk result (Fits topleft diameter) }
{
    if !geometry::in_bounds(topleft) {
        return Err(Refusal::OutOfBounds);
    }
    let left = topleft.0 as i64;
    let top = topleft.1 as i64;
    let side = diameter as i64;
    if (131072 < left + side) | (131072 < top + side) {
        return Err(Refusal::CircleTooFar);
    }
    Ok(())
}

// Whether the pixel lies in the circle's box.
fn in_box(topleft: Point, diameter: u32, p: Point) -> bool
    ensures { result ≡ in_box topleft diameter p }
{
    let left = topleft.0 as i64;
    let top = topleft.1 as i64;
    let side = diameter as i64;
    let x = p.0 as i64;
    let y = p.1 as i64;
    (left..left + side).contains(&x) && (top..top + side).contains(&y)
}

// The squared distance of two places that are near enough for it to fit.
fn distance_squared(a: Doubled, b: Doubled) -> u64
    requires { (nat_abs (a.0 -ℤ b.0) ≤ 262144) × (nat_abs (a.1 -ℤ b.1) ≤ 262144) }
    ensures { pos result ≡ squared_distance a b }
{
    let dx = a.0 - b.0;
    let dy = a.1 - b.1;
    (dx * dx + dy * dy) as u64
}

// Inside the library: whether an accepted circle contains the pixel. Outside the box the answer is no before any square is taken, since
// the squares of far pixels would pass 64 bits.
pub fn accepted_contains(topleft: Point, diameter: u32, p: Point) -> bool
    requires { Fits topleft diameter }
    ensures { result ≡ contained topleft diameter p }
{
    in_box(topleft, diameter, p)
        && distance_squared(place_2x(p), center_2x(topleft, diameter)) < threshold(diameter)
}

// Whether the circle contains the pixel.
pub fn contains(topleft: Point, diameter: u32, p: Point) -> Result<bool, Refusal>
    ensures { as_verdict result ≡ verdict (first (circle_tests topleft diameter)) (contained topleft diameter p) }
{
    accept(topleft, diameter)?;
    Ok(accepted_contains(topleft, diameter, p))
}

// Inside the library: whether an accepted circle contains the four corners of a rectangle of a frame, from column `left` and row `top` to one before `past` and `end`, and with them
// every pixel of it.
pub fn accepted_covers(
    topleft: Point,
    diameter: u32,
    left: u32,
    top: u32,
    past: u32,
    end: u32,
) -> bool
    requires { Fits topleft diameter × (left ≤ 2048) × (top ≤ 2048) × (past ≤ 2048) × (end ≤ 2048) }
    ensures { result ≡ corners topleft diameter left top past end }
{
    let first = left as i32;
    let upper = top as i32;
    let right = past as i32 - 1;
    let bottom = end as i32 - 1;
    accepted_contains(topleft, diameter, Point(first, upper))
        && accepted_contains(topleft, diameter, Point(right, upper))
        && accepted_contains(topleft, diameter, Point(first, bottom))
        && accepted_contains(topleft, diameter, Point(right, bottom))
}

// How many columns of the box come before the first contained one, on a row of the box. dy and dx count half pixels: a column is contained exactly
// if it is at most dx from the centre, and the box's first column is diameter - 1 from it. Half of what lies between, rounded up, is a number of
// columns: in that last division the half pixels end, and nothing after it is doubled.
fn lead(topleft: Point, diameter: u32, y: i32) -> u32
    requires { Fits topleft diameter × (in_box topleft diameter (topleft.0, y) ≡ true) }
    ensures { result ≡ lead_of topleft diameter y }
{
    let left = topleft.0;
    let place = place_2x(Point(left, y));
    let center = center_2x(topleft, diameter);
    let dy = place.1 - center.1;
    let dx = root::isqrt(threshold(diameter) - 1 - (dy * dy) as u64);
    (diameter - dx as u32) / 2
}

// Inside the library: the columns of a row of an accepted circle's box.
pub fn box_row_span(topleft: Point, diameter: u32, y: i32) -> Columns
    requires { Fits topleft diameter × (box_row topleft diameter y ≡ true) }
    ensures { result ≡ (span_start topleft diameter y, span_end topleft diameter y) }
{
    let left = topleft.0;
    let skipped = lead(topleft, diameter, y);
    let kept = diameter - skipped;
    Columns(left + (skipped as i32), left + (kept as i32))
}

// The columns of any row of an accepted circle. A row is in the box exactly if its pixel in the box's first column is.
fn accepted_row_span(topleft: Point, diameter: u32, y: i32) -> Columns
    requires { Fits topleft diameter }
    ensures { result ≡ (span_start topleft diameter y, span_end topleft diameter y) }
{
    let left = topleft.0;
    if !in_box(topleft, diameter, Point(left, y)) {
        return Columns(0, 0);
    }
    box_row_span(topleft, diameter, y)
}

// The columns of row y that the circle contains.
pub fn row_span(topleft: Point, diameter: u32, y: i32) -> Result<Columns, Refusal>
    ensures { as_span result ≡ span (first (circle_tests topleft diameter)) (span_start topleft diameter y) (span_end topleft diameter y) }
{
    accept(topleft, diameter)?;
    Ok(accepted_row_span(topleft, diameter, y))
}
