// Lines: the walker over a line's points, and the questions on a line. A line's points depend on the end that it starts from.
#![tactic(auto)]

ghost use Rattle.std.specs.Prelude.{◌≡◌, true, ℕ, ◌+◌, ◌*◌, ◌≤◌, ◌<◌, eqb, pos, ◌+ℤ◌, ◌-ℤ◌, ◌*ℤ◌, OnOk};
ghost use Rattle.refusals.specs.First.{first};
ghost use Rattle.refusals.specs.Refusal.{as_number};
ghost use Rattle.geometry.specs.declared.Point.{Point as Place};
ghost use Rattle.geometry.specs.Bound.{Bounded};
ghost use Rattle.geometry.specs.Answer.{verdict, as_verdict};
ghost use Rattle.line.specs.Line.{toward, moves, major, minor, points, point_at, on_line, has_point};
ghost use Rattle.line.specs.Reach.{reach, reach_from};
ghost use Rattle.line.specs.Walk.{CourseOf, SomeCourse, Reachable, Near, standing, is_due, Stands, Moving, Walking, WalkerAt};
ghost use Rattle.line.specs.Answer.{end_tests, step_tests, length_answer, as_length, step_answer, as_step};

use geometry::Point;
use refusals::Refusal;

// The parameters of a line: the error that a minor move needs, its change with a major and with a minor move, and the moves.
#[derive(Debug, Clone, Copy, PartialEq, Eq, Hash)]
pub struct Course {
    pub threshold: i32,
    pub up: i32,
    pub down: i32,
    pub xmajor: i32,
    pub ymajor: i32,
    pub xminor: i32,
    pub yminor: i32,
}

// A walk along a line, at the point that it hands out next.
#[derive(Debug, Clone, Copy, PartialEq, Eq, Hash)]
pub struct Walker {
    pub x: i32,
    pub y: i32,
    pub error: i32,
    pub course: Course,
}

// A point, and the walker at the next.
#[derive(Debug, Clone, Copy, PartialEq, Eq, Hash)]
pub struct Stepped {
    pub point: Point,
    pub walker: Walker,
}

// How many points a line has, as C is handed it; with a refusal its number and 0.
#[repr(C)]
#[derive(Clone, Copy)]
pub struct Length {
    pub number: u32,
    pub points: u32,
}

impl From<Result<u32, Refusal>> for Length {
    ghost from_gives = { λ answer l. l ≡ as_length answer };

    fn from(answer: Result<u32, Refusal>) -> Self {
        match answer {
            Ok(points) => Length { number: 0, points },
            Err(refusal) => Length {
                number: refusal.number(),
                points: 0,
            },
        }
    }
}

// Inside the library: one place from a towards b. The signum of the difference would be 0 where they are the same.
pub fn direction(a: i32, b: i32) -> i32
    ensures { result ≡ toward a b }
{
    if a <= b { 1 } else { -1 }
}

// Inside the library: the parameters of the accepted line from start to end.
pub fn course_of(start: Point, end: Point) -> Course
    requires { Bounded start × Bounded end }
    ensures { CourseOf start end result }
{
    let wide = end.0.abs_diff(start.0) as i32;
    let high = end.1.abs_diff(start.1) as i32;
    let dx = direction(start.0, end.0);
    let dy = direction(start.1, end.1);
    if wide <= high {
        Course {
            threshold: high,
            up: 2 * wide,
            down: 2 * high,
            xmajor: 0,
            ymajor: dy,
            xminor: dx,
            yminor: 0,
        }
    } else {
        Course {
            threshold: wide,
            up: 2 * high,
            down: 2 * wide,
            xmajor: dx,
            ymajor: 0,
            xminor: 0,
            yminor: dy,
        }
    }
}

impl Walker {
    // Inside the library: the walker that stands at a line's start and has handed out no point.
    pub fn new(start: Point, end: Point) -> Self
        requires { Bounded start × Bounded end }
        ensures { WalkerAt start end 0 result }
    {
        let c = course_of(start, end);
        let x = start.0;
        let y = start.1;
        Walker {
            x: x,
            y: y,
            error: 0,
            course: c,
        }
    }

    // Inside the library: the walker that stands at the point of step k, without walking there.
    pub fn at(start: Point, end: Point, k: u32) -> Self
        requires { (Bounded start × Bounded end) × (k ≤ major start end) }
        ensures { WalkerAt start end k result }
    {
        let c = course_of(start, end);
        let m = minor_moves(start, end, k);
        let p = place_after(start, c, k, m);
        let error = error_after(c.up, c.down, k, m);
        Walker {
            x: p.0,
            y: p.1,
            error: error,
            course: c,
        }
    }

    // Inside the library: whether the walker's minor move is due.
    pub fn is_due(self) -> bool
        requires { Moving self }
        ensures { (s e : Place) (k m : ℕ) → Stands s e k m self → result ≡ is_due (major s e) (minor s e) k m }
    {
        let c = self.course;
        let error = self.error;
        let threshold = c.threshold;
        threshold < error
    }

    // Inside the library: the walker after the minor move, which is due.
    pub fn minor_move(self) -> Self
        requires { Moving self }
        ensures { (s e : Place) (k m : ℕ) → Stands s e k m self → is_due (major s e) (minor s e) k m ≡ true → Stands s e k (m + 1) result }
    {
        let c = self.course;
        Walker {
            x: self.x + c.xminor,
            y: self.y + c.yminor,
            error: self.error - c.down,
            course: c,
        }
    }

    // Inside the library: the walker after the major move.
    pub fn major_move(self) -> Self
        requires { Walking self }
        ensures { (s e : Place) (k m : ℕ) → Stands s e k m self → Stands s e (k + 1) m result }
    {
        let c = self.course;
        Walker {
            x: self.x + c.xmajor,
            y: self.y + c.ymajor,
            error: self.error + c.up,
            course: c,
        }
    }

    // Whether a minor move is due after the major one. The error before that move is asked, so that a loop need not wait for the one after it (docs/BENCHMARKS.md).
    fn is_due_next(self) -> bool
        requires { Walking self }
        ensures { (s e : Place) (k m : ℕ) → Stands s e k m self → result ≡ is_due (major s e) (minor s e) (k + 1) m }
    {
        let c = self.course;
        let error = self.error;
        c.threshold - c.up < error
    }

    // Inside the library: the point that the walker stands at, and the walker at the next.
    pub fn step(self) -> Stepped
        requires { Walking self }
        ensures { (s e : Place) (k : ℕ) → k ≤ major s e → WalkerAt s e k self → (result.point ≡ point_at s e k) × WalkerAt s e (k + 1) result.walker }
    {
        let point = Point(self.x, self.y);
        let moved = self.major_move();
        if self.is_due_next() {
            return Stepped {
                point: point,
                walker: moved.minor_move(),
            };
        }
        Stepped {
            point: point,
            walker: moved,
        }
    }
}

// Inside the library: the moves along the minor axis at step k, by the rule. The minor length comes doubled, as a course has it.
pub fn moves_at(major: u32, up: u32, k: u32) -> u32
    requires { (k ≤ major) × (major ≤ 262144) × (up ≤ 2 * major) }
    ensures { (minor : ℕ) → up ≡ 2 * minor → result ≡ moves major minor k }
{
    if major == 0 {
        0
    } else {
        let whole = up as u64 * k as u64 + (major as u64 - 1);
        (whole / (2 * major as u64)) as u32
    }
}

// Inside the library: the moves along the minor axis at step k of an accepted line.
pub fn minor_moves(start: Point, end: Point, k: u32) -> u32
    requires { (Bounded start × Bounded end) × (k ≤ major start end) }
    ensures { result ≡ moves (major start end) (minor start end) k }
{
    let c = course_of(start, end);
    moves_at(c.threshold as u32, c.up as u32, k)
}

// Inside the library: the last step at which a line has made so many moves along its minor axis, were it to go on.
pub fn reach_of(major: u32, minor: u32, moved: u32) -> u64
    requires { (major ≤ 262144) × (moved ≤ 262144) × (0 < minor) }
    ensures { result ≡ reach major minor moved }
{
    (2 * moved as u64 + 1) * major as u64 / (2 * minor as u64)
}

// Inside the library: the first step at which it has: one past the last at which it has made one fewer.
pub fn first_with(major: u32, minor: u32, moved: u32) -> u32
    requires { (major ≤ 262144) × (minor ≤ major) × (moved ≤ minor) }
    ensures { result ≡ reach_from major minor moved }
{
    if moved == 0 {
        0
    } else {
        (reach_of(major, minor, moved - 1) + 1) as u32
    }
}

// The coordinate that is so many major and minor moves from a, each move being -1, 0 or 1.
fn coordinate(a: i32, major: i32, along: i32, minor: i32, across: i32) -> i32
    requires { Reachable a major along minor across }
    ensures { result ≡ a +ℤ major *ℤ along +ℤ minor *ℤ across }
{
    a + major * along + minor * across
}

// Inside the library: where k major and m minor moves lead from start.
pub fn place_after(start: Point, c: Course, k: u32, m: u32) -> Point
    requires { Bounded start × SomeCourse c × (k ≤ 262144) × (m ≤ 262144) }
    ensures { (e : Place) → CourseOf start e c → result ≡ standing start e k m }
{
    let along = k as i32;
    let across = m as i32;
    let x = coordinate(start.0, c.xmajor, along, c.xminor, across);
    let y = coordinate(start.1, c.ymajor, along, c.yminor, across);
    Point(x, y)
}

// The error after k major and m minor moves. The products pass 32 bits, and their difference does not.
fn error_after(up: i32, down: i32, k: u32, m: u32) -> i32
    requires { Near up down k m }
    ensures { result ≡ up *ℤ pos k -ℤ down *ℤ pos m }
{
    (up as i64 * k as i64 - down as i64 * m as i64) as i32
}

// The point at a step, without walking there.
fn point_at(start: Point, end: Point, step: u32) -> Point
    requires { (Bounded start × Bounded end) × (step ≤ major start end) }
    ensures { result ≡ point_at start end step }
{
    let w = Walker::at(start, end, step);
    Point(w.x, w.y)
}

// Inside the library: whether a line is accepted; it is refused where an end is out of bounds.
#[tactic(auto, unfolding(crate::specs::Answer::end_tests))]
pub fn accept(start: Point, end: Point) -> Result<(), Refusal>
    ensures number { as_number result ≡ first (end_tests start end) }
    ensures accepted { OnOk result (Bounded start × Bounded end) }
{
    if geometry::in_bounds(start) & geometry::in_bounds(end) {
        Ok(())
    } else {
        Err(Refusal::OutOfBounds)
    }
}

// Inside the library: the last step of an accepted line.
pub fn last_step(start: Point, end: Point) -> u32
    requires { Bounded start × Bounded end }
    ensures { result ≡ major start end }
{
    let c = course_of(start, end);
    c.threshold as u32
}

// The number of points of a line.
pub fn major_length(start: Point, end: Point) -> Result<u32, Refusal>
    ensures { as_length result ≡ length_answer (first (end_tests start end)) (points start end) }
{
    accept(start, end)?;
    Ok(last_step(start, end) + 1)
}

// The point of a line at a step, the start being step 0.
#[tactic(auto, unfolding(crate::specs::Answer::end_tests, crate::specs::Answer::step_tests))]
pub fn point(start: Point, end: Point, step: u32) -> Result<Point, Refusal>
    ensures { as_step result ≡ step_answer (first (step_tests start end step)) (point_at start end step) }
{
    accept(start, end)?;
    if last_step(start, end) < step {
        return Err(Refusal::PastLastStep);
    }
    Ok(point_at(start, end, step))
}

// How many places p is from a, counted towards b: below 0 on the other side. Each way has a difference of its own: one that serves both is kept in
// registers from the areas on, which costs `contains` a twentieth (docs/BENCHMARKS.md).
fn progress(a: i32, b: i32, p: i32) -> i64
    ensures { result ≡ toward a b *ℤ (p -ℤ a) }
{
    if a <= b {
        p as i64 - a as i64
    } else {
        a as i64 - p as i64
    }
}

// Whether `across` are the moves along the minor axis at step `along`: the doubled area between the ideal line and the point is within the band
// that fixes them.
fn is_moves(major: u64, minor: u64, along: u64, across: u64) -> bool
    requires { (minor ≤ major) × (major ≤ 262144) × (along ≤ major) × (across ≤ minor) }
    ensures { result ≡ eqb across (moves major minor along) }
{
    if major == 0 {
        return true;
    }
    let ideal = 2 * minor * along;
    let here = 2 * major * across;
    here < ideal + major && ideal <= here + major
}

// Whether x moves along and y moves down lead to a point of a line that is `wide` and `high`.
fn on_line(wide: u32, high: u32, x: i64, y: i64) -> bool
    requires { (wide ≤ 262144) × (high ≤ 262144) }
    ensures { result ≡ on_line wide high x y }
{
    if x < 0 || y < 0 {
        return false;
    }
    let w = wide as u64;
    let h = high as u64;
    let u = x as u64;
    let v = y as u64;
    if w < u || h < v {
        return false;
    }
    if w <= h {
        is_moves(h, w, v, u)
    } else {
        is_moves(w, h, u, v)
    }
}

// Inside the library: whether p is a point of an accepted line.
pub fn meets(start: Point, end: Point, p: Point) -> bool
    requires { Bounded start × Bounded end }
    ensures { result ≡ has_point start end p }
{
    let wide = end.0.abs_diff(start.0);
    let high = end.1.abs_diff(start.1);
    let x = progress(start.0, end.0, p.0);
    let y = progress(start.1, end.1, p.1);
    on_line(wide, high, x, y)
}

// Whether p is a point of the line: any pixel may be asked.
pub fn has_point(start: Point, end: Point, p: Point) -> Result<bool, Refusal>
    ensures { as_verdict result ≡ verdict (first (end_tests start end)) (has_point start end p) }
{
    accept(start, end)?;
    Ok(meets(start, end, p))
}
