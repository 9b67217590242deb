// Connected lines: the points of a line with an extra one at each minor move, on the right side, so that each shares an edge with the next and no diagonal gap is
// left. The walker, and the questions on a connected line. Its points depend on the end that it starts from.
#![tactic(auto)]

ghost use Rattle.std.specs.Prelude.{◌≡◌, ℕ, ◌+◌, ◌-◌, ◌≤◌};
ghost use Rattle.refusals.specs.First.{first};
ghost use Rattle.geometry.specs.declared.Point.{Point as Place};
ghost use Rattle.geometry.specs.Bound.{Bounded};
ghost use Rattle.geometry.specs.Answer.{verdict, as_verdict};
ghost use Rattle.line.specs.Line.{major};
ghost use Rattle.line.specs.Walk.{CourseOf, SomeCourse, is_due};
ghost use Rattle.line.specs.Answer.{end_tests, length_answer, as_length, step_answer, as_step};
ghost use Rattle.connected.specs.Connected.{index_of, last_index, connected_points, points_before, connected_at, has_connected};
ghost use Rattle.connected.specs.Walk.{mirrored, MovesMade, NextAt, Connecting, HandedOut};
ghost use Rattle.connected.specs.Answer.{index_tests};

use geometry::Point;
use line::{Course, Walker};
use refusals::Refusal;

// A point, whether it is an extra one, and the walker at the next.
#[derive(Debug, Clone, Copy, PartialEq, Eq, Hash)]
pub struct SteppedAll {
    pub point: Point,
    pub extra: bool,
    pub walker: Walker,
}

// Whether the minor move, made alone, leads to the right of the line.
fn mirrors(c: Course) -> bool
    requires { SomeCourse c }
    ensures { (s e : Place) → CourseOf s e c → result ≡ mirrored s e }
{
    if c.xmajor != 0 {
        c.xmajor == c.yminor
    } else {
        c.ymajor == -c.xminor
    }
}

// Inside the library: the walker of an accepted connected line that hands out the normal point of a step next, without walking there.
pub fn walker_at(start: Point, end: Point, step: u32) -> Walker
    requires { (Bounded start × Bounded end) × (step ≤ major start end) }
    ensures { NextAt start end (index_of start end step) result }
{
    Walker::at(start, end, step)
}

// Inside the library: the next point of a connected line, whether it is an extra one, and the walker at the point after it. The walker is handed on before its
// minor move: where one is due the extra point comes first, the place that the walker stands at or its mirror image.
pub fn next_all(w: Walker) -> SteppedAll
    requires { Connecting w }
    ensures { (s e : Place) (i : ℕ) → i ≤ last_index s e → NextAt s e i w → HandedOut s e i result }
{
    let here = Point(w.x, w.y);
    if w.is_due() {
        let moved = w.minor_move();
        let next = Point(moved.x, moved.y);
        let c = moved.course;
        if mirrors(c) {
            return SteppedAll {
                point: Point(next.0 - c.xmajor, next.1 - c.ymajor),
                extra: true,
                walker: moved,
            };
        }
        return SteppedAll {
            point: here,
            extra: true,
            walker: moved,
        };
    }
    SteppedAll {
        point: here,
        extra: false,
        walker: w.major_move(),
    }
}

// Inside the library: the last index of an accepted connected line, the moves along both axes.
pub fn last_index(start: Point, end: Point) -> u32
    requires { Bounded start × Bounded end }
    ensures { result ≡ last_index start end }
{
    end.0.abs_diff(start.0) + end.1.abs_diff(start.1)
}

// Inside the library: how many points of an accepted connected line come before the normal point of a step; all of them, for a step past the last.
pub fn points_before(start: Point, end: Point, step: u32) -> u32
    requires { Bounded start × Bounded end }
    ensures { result ≡ points_before start end step }
{
    if line::last_step(start, end) < step {
        last_index(start, end) + 1
    } else {
        step + line::minor_moves(start, end, step)
    }
}

// The minor ones of the i moves that come before the point of index i.
fn crossings(major: u64, minor: u64, i: u64) -> u64
    requires { (minor ≤ major) × (major ≤ 262144) × (i ≤ major + minor) }
    ensures { MovesMade major minor (i - result) result }
{
    if major == 0 {
        0
    } else {
        (2 * minor * i + (major - 1)) / (2 * major + 2 * minor)
    }
}

// Whether a minor move is due after k major and m minor moves.
fn is_due(major: u64, minor: u64, k: u64, m: u64) -> bool
    requires { (minor ≤ major) × (major ≤ 262144) × (k ≤ major) × (m ≤ k) }
    ensures { result ≡ is_due major minor k m }
{
    2 * major * m + major < 2 * minor * k
}

// The point of index i, without walking there.
fn point_at(start: Point, end: Point, i: u32) -> Point
    requires { (Bounded start × Bounded end) × (i ≤ last_index start end) }
    ensures { result ≡ connected_at start end i }
{
    let c = line::course_of(start, end);
    let major = line::last_step(start, end) as u64;
    let minor = last_index(start, end) as u64 - major;
    let m = crossings(major, minor, i as u64);
    let k = i as u64 - m;
    if is_due(major, minor, k, m) {
        if mirrors(c) {
            return line::place_after(start, c, k as u32 - 1, m as u32 + 1);
        }
    }
    line::place_after(start, c, k as u32, m as u32)
}

// The number of points of a connected line.
pub fn length(start: Point, end: Point) -> Result<u32, Refusal>
    ensures { as_length result ≡ length_answer (first (end_tests start end)) (connected_points start end) }
{
    line::accept(start, end)?;
    Ok(last_index(start, end) + 1)
}

// The point of a connected line at an index, the start having index 0.
#[tactic(auto, unfolding(line::specs::Answer::end_tests, crate::specs::Answer::index_tests))]
pub fn point(start: Point, end: Point, index: u32) -> Result<Point, Refusal>
    ensures { as_step result ≡ step_answer (first (index_tests start end index)) (connected_at start end index) }
{
    line::accept(start, end)?;
    if last_index(start, end) < index {
        return Err(Refusal::PastLastStep);
    }
    Ok(point_at(start, end, index))
}

// Whether p is a point of an accepted connected line. A point's index is the sum of its moves along both axes, so that one index is asked.
fn meets(start: Point, end: Point, p: Point) -> bool
    requires { Bounded start × Bounded end }
    ensures { result ≡ has_connected start end p }
{
    let i = p.0.abs_diff(start.0) as u64 + p.1.abs_diff(start.1) as u64;
    i <= last_index(start, end) as u64 && p == point_at(start, end, i as u32)
}

// Whether p is a point of the connected line: any pixel may be asked.
pub fn has_point(start: Point, end: Point, p: Point) -> Result<bool, Refusal>
    ensures { as_verdict result ≡ verdict (first (end_tests start end)) (has_connected start end p) }
{
    line::accept(start, end)?;
    Ok(meets(start, end, p))
}
