// Triangles: whether a pixel is contained, the columns of a row, and the rows. Vertices may come in any order, lie on one line or coincide.
#![tactic(auto)]

ghost use Rattle.std.specs.Prelude.{◌≡◌, cond, not, ◌&&◌, ◌||◌, ◌<◌, ◌≤◌, min, pos, neg_ℤ, nat_abs, ◌+ℤ◌, ◌≤ℤ◌, OnOk};
ghost use Rattle.whole.specs.Equal.{eq_z};
ghost use Rattle.refusals.specs.First.{first};
ghost use Rattle.refusals.specs.Refusal.{as_number};
ghost use Rattle.geometry.specs.Place.{area_doubled};
ghost use Rattle.geometry.specs.Bound.{Bounded};
ghost use Rattle.geometry.specs.Answer.{verdict, as_verdict, span, as_span};
ghost use Rattle.triangle.specs.Order.{placed, sorted, Down};
ghost use Rattle.triangle.specs.Triangle.{none_below, none_above, on_edge, is_flat, contained};
ghost use Rattle.line.specs.Reach.{reach};
ghost use Rattle.triangle.specs.Offsets.{first_offset, last_offset};
ghost use Rattle.triangle.specs.Row.{extended, hull, line_columns, edge_columns, row_span, first_row, row_count};
ghost use Rattle.triangle.specs.Box.{is_beyond, outside_box};
ghost use Rattle.triangle.specs.Answer.{vertex_tests, rows_answer, as_rows};

use geometry::{Columns, Point};
use refusals::Refusal;

// The vertices by y, then x.
#[derive(Debug, Clone, Copy, PartialEq, Eq, Hash)]
pub struct Sorted {
    pub p1: Point,
    pub p2: Point,
    pub p3: Point,
}

// A stretch of columns, counted from an edge's start: the first and the last.
#[derive(Debug, Clone, Copy, PartialEq, Eq, Hash)]
struct Stretch {
    first: u32,
    last: u32,
}

// The rows of a triangle: the first, and how many.
#[derive(Clone, Copy)]
pub struct RowRun {
    pub first: i32,
    pub count: u32,
}

// The rows of a triangle, as C is handed them; with a refusal its number, and 0 and 0.
#[repr(C)]
#[derive(Clone, Copy)]
pub struct RowRange {
    pub number: u32,
    pub first: i32,
    pub count: u32,
}

impl From<Result<RowRun, Refusal>> for RowRange {
    ghost from_gives = { λ answer r. r ≡ as_rows answer };

    fn from(answer: Result<RowRun, Refusal>) -> Self {
        match answer {
            Ok(rows) => RowRange {
                number: 0,
                first: rows.first,
                count: rows.count,
            },
            Err(refusal) => RowRange {
                number: refusal.number(),
                first: 0,
                count: 0,
            },
        }
    }
}

// Inside the library: whether a triangle is accepted; it is refused where a vertex is out of bounds.
#[tactic(auto, unfolding(crate::specs::Answer::vertex_tests))]
pub fn accept(v1: Point, v2: Point, v3: Point) -> Result<(), Refusal>
    ensures number { as_number result ≡ first (vertex_tests v1 v2 v3) }
    ensures accepted { OnOk result (Bounded v1 × Bounded v2 × Bounded v3) }
{
    if geometry::in_bounds(v1) & (geometry::in_bounds(v2) & geometry::in_bounds(v3)) {
        Ok(())
    } else {
        Err(Refusal::OutOfBounds)
    }
}

// Inside the library: twice the signed area of p, a, b, by differences and products of 64 bits. Each difference is taken from p, which changes no
// product's sign.
pub fn area_doubled(p: Point, a: Point, b: Point) -> i64
    requires { Bounded p × Bounded a × Bounded b }
    ensures { result ≡ area_doubled p a b }
{
    let ax = p.0 as i64 - a.0 as i64;
    let ay = p.1 as i64 - a.1 as i64;
    let bx = p.0 as i64 - b.0 as i64;
    let by = p.1 as i64 - b.1 as i64;
    ax * by - bx * ay
}

// Inside the library: whether an accepted triangle has an area.
pub fn is_solid(v1: Point, v2: Point, v3: Point) -> bool
    requires { Bounded v1 × Bounded v2 × Bounded v3 }
    ensures { result ≡ not (is_flat v1 v2 v3) }
{
    area_doubled(v1, v2, v3) != 0
}

// c put into its place among a and b, which are sorted.
fn place(a: Point, b: Point, c: Point) -> Sorted
    ensures { result ≡ placed a b c }
{
    if geometry::in_order(c, a) {
        Sorted {
            p1: c,
            p2: a,
            p3: b,
        }
    } else if geometry::in_order(c, b) {
        Sorted {
            p1: a,
            p2: c,
            p3: b,
        }
    } else {
        Sorted {
            p1: a,
            p2: b,
            p3: c,
        }
    }
}

// Inside the library: the vertices sorted by y, then x.
#[tactic(auto, unfolding(crate::specs::Order::sorted))]
pub fn sorted_yx(v1: Point, v2: Point, v3: Point) -> Sorted
    ensures { result ≡ sorted v1 v2 v3 }
{
    if geometry::in_order(v1, v2) {
        place(v1, v2, v3)
    } else {
        place(v2, v1, v3)
    }
}

// Whether x lies beyond a, b and c, on one side of all three.
fn beyond(x: i32, a: i32, b: i32, c: i32) -> bool
    ensures { result ≡ is_beyond x a b c }
{
    (x < a && x < b && x < c) || (a < x && b < x && c < x)
}

// Whether p lies outside the bounding box of the vertices.
fn outside(v1: Point, v2: Point, v3: Point, p: Point) -> bool
    ensures { result ≡ outside_box v1 v2 v3 p }
{
    beyond(p.0, v1.0, v2.0, v3.0) || beyond(p.1, v1.1, v2.1, v3.1)
}

// Whether a, b, c are all at least 0.
fn none_below(a: i64, b: i64, c: i64) -> bool
    ensures { result ≡ none_below a b c }
{
    0 <= a && 0 <= b && 0 <= c
}

// Whether a, b, c are all at least 0, and not all 0.
fn one_side(a: i64, b: i64, c: i64) -> bool
    ensures { result ≡ none_below a b c && not (eq_z ((a +ℤ b) +ℤ c) (pos 0)) }
{
    none_below(a, b, c) && ((a != 0) | ((b != 0) | (c != 0)))
}

// Whether a, b, c are all at least 0 or all at most 0, and not all 0.
fn same_side(a: i64, b: i64, c: i64) -> bool
    requires { (nat_abs a ≤ 549755813888) × (nat_abs b ≤ 549755813888) × (nat_abs c ≤ 549755813888) }
    ensures { result ≡ (none_below a b c || none_above a b c) && not (eq_z ((a +ℤ b) +ℤ c) (pos 0)) }
{
    one_side(a, b, c) || one_side(-a, -b, -c)
}

// Whether p is a point of one of the three edges.
fn on_edge(t: Sorted, p: Point) -> bool
    requires { Bounded t.p1 × Bounded t.p2 × Bounded t.p3 }
    ensures { result ≡ on_edge t.p1 t.p2 t.p3 p }
{
    line::meets(t.p1, t.p2, p) || line::meets(t.p1, t.p3, p) || line::meets(t.p2, t.p3, p)
}

// Whether an accepted triangle contains p. A pixel outside the box is answered before any product, which keeps the areas of the others small; most of those
// are answered by their three areas, whose sum is the whole area.
fn holds(v1: Point, v2: Point, v3: Point, p: Point) -> bool
    requires { Bounded v1 × Bounded v2 × Bounded v3 }
    ensures { result ≡ contained v1 v2 v3 p }
{
    if outside(v1, v2, v3, p) {
        return false;
    }
    let a = area_doubled(p, v1, v2);
    let b = area_doubled(p, v2, v3);
    let c = area_doubled(p, v3, v1);
    if same_side(a, b, c) {
        return true;
    }
    let t = sorted_yx(v1, v2, v3);
    if a + b + c == 0 {
        return line::meets(t.p1, t.p3, p);
    }
    on_edge(t, p)
}

// Whether the triangle contains p: any pixel may be asked.
pub fn contains(v1: Point, v2: Point, v3: Point, p: Point) -> Result<bool, Refusal>
    ensures { as_verdict result ≡ verdict (first (vertex_tests v1 v2 v3)) (contained v1 v2 v3 p) }
{
    accept(v1, v2, v3)?;
    Ok(holds(v1, v2, v3, p))
}

// The first row of a triangle, and how many it has.
pub fn rows(v1: Point, v2: Point, v3: Point) -> Result<RowRun, Refusal>
    ensures { as_rows result ≡ rows_answer (first (vertex_tests v1 v2 v3)) (first_row v1 v2 v3) (row_count v1 v2 v3) }
{
    accept(v1, v2, v3)?;
    let t = sorted_yx(v1, v2, v3);
    let top = t.p1;
    let bottom = t.p3;
    Ok(RowRun {
        first: top.1,
        count: (bottom.1 - top.1) as u32 + 1,
    })
}

// The last column on a row of an edge that is wider than high, counted from its start.
fn last_on(wide: u32, high: u32, row: u32) -> u32
    requires { (wide ≤ 262144) × (high < wide) × (0 < high) × (row ≤ high) }
    ensures { result ≡ min wide (reach wide high row) }
{
    let last = line::reach_of(wide, high, row);
    last.min(wide as u64) as u32
}

// The columns of an edge's points on one of its rows, in any direction.
fn stretch_on(wide: u32, high: u32, row: u32) -> Stretch
    requires { (wide ≤ 262144) × (high ≤ 262144) × (row ≤ high) }
    ensures { (result.first ≡ first_offset wide high row) × (result.last ≡ last_offset wide high row) }
{
    if high == 0 {
        Stretch {
            first: 0,
            last: wide,
        }
    } else if wide <= high {
        let moves = line::moves_at(high, 2 * wide, row);
        Stretch {
            first: moves,
            last: moves,
        }
    } else {
        Stretch {
            first: line::first_with(wide, high, row),
            last: last_on(wide, high, row),
        }
    }
}

// An offset from an edge's start: so many columns to its right, or so many to its left.
fn offset(rightward: bool, right: u32, left: u32) -> i32
    requires { (right ≤ 262144) × (left ≤ 262144) }
    ensures { result ≡ cond rightward (pos right) (neg_ℤ (pos left)) }
{
    if rightward {
        right as i32
    } else {
        -(left as i32)
    }
}

// Inside the library: the columns of the points on row y of an edge that runs down.
pub fn bresenham_intersection(start: Point, end: Point, y: i32) -> Columns
    requires { (Bounded start × Bounded end) × (start.1 ≤ℤ end.1) }
    ensures { result ≡ hull (line_columns start end y) }
{
    let x = start.0;
    let top = start.1;
    let far = end.0;
    let bottom = end.1;
    if y < top || bottom < y {
        return Columns(0, 0);
    }
    let wide = far.abs_diff(x);
    let high = (bottom - top) as u32;
    let row = (y - top) as u32;
    let s = stretch_on(wide, high, row);
    let first = offset(x <= far, s.first, s.last);
    let last = offset(x <= far, s.last, s.first);
    Columns(x + first, x + last + 1)
}

// The span that takes in both; an empty one adds nothing.
fn extend(a: Columns, b: Columns) -> Columns
    ensures { result ≡ extended a b }
{
    if a.0 == a.1 {
        b
    } else if b.0 == b.1 {
        a
    } else {
        Columns(a.0.min(b.0), a.1.max(b.1))
    }
}

// Inside the library: the span of row y, of sorted vertices.
pub fn scanline_intersection(t: Sorted, y: i32) -> Columns
    requires { (Bounded t.p1 × Bounded t.p2 × Bounded t.p3) × Down t }
    ensures { result ≡ hull (edge_columns (is_flat t.p1 t.p2 t.p3) t y) }
{
    if !is_solid(t.p1, t.p2, t.p3) {
        return bresenham_intersection(t.p1, t.p3, y);
    }
    let upper = bresenham_intersection(t.p1, t.p2, y);
    let long = bresenham_intersection(t.p1, t.p3, y);
    let lower = bresenham_intersection(t.p2, t.p3, y);
    extend(upper, extend(long, lower))
}

// The columns of row y of the triangle: any row may be asked.
pub fn row_span(v1: Point, v2: Point, v3: Point, y: i32) -> Result<Columns, Refusal>
    ensures { as_span result ≡ span (first (vertex_tests v1 v2 v3)) (row_span v1 v2 v3 y).0 (row_span v1 v2 v3 y).1 }
{
    accept(v1, v2, v3)?;
    Ok(scanline_intersection(sorted_yx(v1, v2, v3), y))
}
