// Which steps of a line lead into a rectangle of a frame. Both coordinates of a line move one way only, so that these steps follow one another, and they are worked out
// from the line's ends.
#![tactic(auto)]

ghost use Rattle.std.specs.Prelude.{◌≡◌, ℕ, ◌+◌, ◌≤◌, leb, nat_abs, ◌-ℤ◌};
ghost use Rattle.std.specs.Int.Signed.{le_z};
ghost use Rattle.geometry.specs.Bound.{Coord, Bounded};
ghost use Rattle.windows.specs.Window.{Small};
ghost use Rattle.line.specs.Line.{moves, steep};
ghost use Rattle.windows.specs.Interval.{Held};
ghost use Rattle.clips.specs.Steps.{AxesOf, LineSteps, Common, InnerSteps};

use geometry::Point;
use std::ops::Range;
use windows::Window;

// The moves of a line along its major axis and those across it, along the minor one: how many, and those that lead to a coordinate of the rectangle's.
#[derive(Drop)]
struct Axes {
    major: u32,
    minor: u32,
    along: Range<u32>,
    across: Range<u32>,
}

// Of the moves of a coordinate from a to b, one place each, those that lead to a place from low to one before high.
fn axis_steps(a: i32, b: i32, low: u32, high: u32) -> Range<u32>
    requires { (Coord a × Coord b) × (low ≤ 2048) × (high ≤ 2048) }
    ensures { Held a (le_z a b) low high (nat_abs (b -ℤ a) + 1) result }
{
    windows::held(a, a <= b, low, high, b.abs_diff(a) + 1)
}

// Whether the rows are a line's major axis: where it is as high as wide they are.
fn is_steep(start: Point, end: Point) -> bool
    requires { Bounded start × Bounded end }
    ensures { result ≡ steep start end }
{
    end.0.abs_diff(start.0) <= end.1.abs_diff(start.1)
}

// The moves of an accepted line along both axes.
fn axes_of(window: Window, start: Point, end: Point) -> Axes
    requires { Small window × (Bounded start × Bounded end) }
    ensures { AxesOf window start end result }
{
    let wide = end.0.abs_diff(start.0);
    let high = end.1.abs_diff(start.1);
    let columns = axis_steps(start.0, end.0, window.left, window.right);
    let rows = axis_steps(start.1, end.1, window.top, window.bottom);
    if wide <= high {
        Axes {
            major: high,
            minor: wide,
            along: rows,
            across: columns,
        }
    } else {
        Axes {
            major: wide,
            minor: high,
            along: columns,
            across: rows,
        }
    }
}

// Inside the library: the steps of an accepted line on which its major coordinate is one of the rectangle's. No other step leads into the rectangle.
pub fn line_steps(window: Window, start: Point, end: Point) -> Range<u32>
    requires { Small window × (Bounded start × Bounded end) }
    ensures { LineSteps window start end result }
{
    if is_steep(start, end) {
        axis_steps(start.1, end.1, window.top, window.bottom)
    } else {
        axis_steps(start.0, end.0, window.left, window.right)
    }
}

// The first step of a line of these lengths that has made so many moves along the minor axis, or one past its last.
fn step_with(major: u32, minor: u32, moved: u32) -> u32
    requires { (major ≤ 262144) × (minor ≤ major) }
    ensures { (result ≤ major + 1) × ((k : ℕ) → k ≤ major → leb result k ≡ leb moved (moves major minor k)) }
{
    if minor < moved {
        major + 1
    } else {
        line::first_with(major, minor, moved)
    }
}

// The steps of a line of these lengths that `along` has, and at which `across` has the moves along the minor axis.
fn common_steps(major: u32, minor: u32, along: Range<u32>, across: Range<u32>) -> Range<u32>
    requires { (major ≤ 262144) × (minor ≤ major) × (along.start ≤ major + 1) × (along.end ≤ major + 1) }
    ensures { Common major minor along across result }
{
    let start = step_with(major, minor, across.start);
    let end = step_with(major, minor, across.end);
    along.start.max(start)..along.end.min(end)
}

// Inside the library: the steps of an accepted line that lead into the rectangle. A line is walked from the first of them to the last, however long it is, and no place
// is asked for by itself.
pub fn inner_steps(window: Window, start: Point, end: Point) -> Range<u32>
    requires { Small window × (Bounded start × Bounded end) }
    ensures { InnerSteps window start end result }
{
    let axes = axes_of(window, start, end);
    common_steps(axes.major, axes.minor, axes.along, axes.across)
}
