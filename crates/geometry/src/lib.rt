// Places of pixels and of half pixels, which look alike and are kept apart by their types; the bound on coordinates; the order of places and of
// columns; and the answers that questions on every figure share.
#![tactic(auto)]

ghost use Rattle.std.specs.Prelude.{◌≡◌};
ghost use Rattle.std.specs.Cmp.{partial_order_from_own_ties};
ghost use Rattle.std.specs.Cmp.Rules.{comparing};
ghost use Rattle.std.specs.Ordering.{as_partial_cmp};
ghost use Rattle.std.proofs.Common.{rules};
ghost use Rattle.geometry.specs.Place.{before, by_row};
ghost use Rattle.geometry.specs.Bound.{is_coord, in_bounds};
ghost use Rattle.geometry.specs.Answer.{as_verdict, as_span};

use refusals::Refusal;
use std::cmp::Ordering;

// A pixel's place: its column and its row.
#[derive(Debug, Clone, Copy, PartialEq, Eq, Hash)]
pub struct Point(pub i32, pub i32);

// Places are ordered by y, then x.
impl Ord for Point {
    ghost cmp = { by_row };

    ghost total = { Prim.search (comparing, rules) };

    ghost matches_partial_cmp = { Prim.search (comparing, rules) };

    ghost matches_eq = { Prim.search (comparing, rules) };

    fn cmp(&self, other: &Point) -> Ordering {
        self.1.cmp(&other.1).then(self.0.cmp(&other.0))
    }
}

impl PartialOrd for Point {
    ghost partial_cmp = { as_partial_cmp by_row };

    ghost laws = { partial_order_from_own_ties (Prim.search (comparing, rules)) (Prim.search (comparing, rules)) };

    fn partial_cmp(&self, other: &Point) -> Option<Ordering> {
        Some(self.cmp(other))
    }
}

// A place in half_pixel (doubled) units, in which a circle's centre is a whole place too.
#[derive(Debug, Clone, Copy, PartialEq, Eq, Hash)]
pub struct Doubled(pub i64, pub i64);

// A span of columns: the first, and one past the last; empty if they are the same.
#[derive(Debug, Clone, Copy, PartialEq, Eq, Hash)]
pub struct Columns(pub i32, pub i32);

// A yes or no, as C is handed it. The number is 0, or that of the refusal, and then the answer is no.
#[repr(C)]
#[derive(Clone, Copy)]
pub struct Verdict {
    pub number: u32,
    pub yes: bool,
}

impl From<Result<bool, Refusal>> for Verdict {
    ghost from_gives = { λ answer v. v ≡ as_verdict answer };

    fn from(answer: Result<bool, Refusal>) -> Self {
        match answer {
            Ok(yes) => Verdict { number: 0, yes },
            Err(refusal) => Verdict {
                number: refusal.number(),
                yes: false,
            },
        }
    }
}

// A row's columns, as C is handed them: from the first to one past the last; 0 to 0 where there are none. With a refusal its number and 0 to 0.
#[repr(C)]
#[derive(Clone, Copy)]
pub struct Span {
    pub number: u32,
    pub start: i32,
    pub end: i32,
}

impl From<Result<Columns, Refusal>> for Span {
    ghost from_gives = { λ answer s. s ≡ as_span answer };

    fn from(answer: Result<Columns, Refusal>) -> Self {
        match answer {
            Ok(columns) => Span {
                number: 0,
                start: columns.0,
                end: columns.1,
            },
            Err(refusal) => Span {
                number: refusal.number(),
                start: 0,
                end: 0,
            },
        }
    }
}

// Whether a vertex, a line end or a circle's top-left may have the coordinate.
fn is_coord(x: i32) -> bool
    ensures { result ≡ is_coord x }
{
    (-131072..=131071).contains(&x)
}

// Inside the library: whether a vertex, a line end or a circle's top-left may stand here. Where it may not, whoever asks refuses with 5.
pub fn in_bounds(p: Point) -> bool
    ensures { result ≡ in_bounds p }
{
    is_coord(p.0) && is_coord(p.1)
}

// Inside the library: whether a stands before b by y, then x, or in the same place. The two come by value: where places are compared as they lie in memory they
// are kept there, and a triangle's rows take more than twice as long (docs/BENCHMARKS.md).
pub fn in_order(a: Point, b: Point) -> bool
    ensures { result ≡ before a b }
{
    a <= b
}
