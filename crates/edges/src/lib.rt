// The edges of a triangle, walked together from the top down: each row takes from every edge the points that it has there, so that each edge is
// walked once, and widens the row's first and last column by them. An edge that is not on the row hands out nothing.
#![tactic(auto)]

ghost use Rattle.std.specs.Prelude.{◌≡◌, Bool, ℕ, ◌+◌, ◌<◌, pos, negsuc, ◌≤ℤ◌};
ghost use Rattle.geometry.specs.declared.Point.{Point as Place};
ghost use Rattle.geometry.specs.Bound.{Bounded};
ghost use Rattle.line.specs.Walk.{WalkerAt};
ghost use Rattle.triangle.specs.declared.Sorted.{Sorted as Triangle};
ghost use Rattle.triangle.specs.Order.{Down};
ghost use Rattle.edges.specs.Side.{Going, WalkedTo, EdgeAt, Taken, Ran};
ghost use Rattle.edges.specs.Edges.{asked_points, WalkAt, Rowing, Rowed};

use geometry::Point;
use triangle::Sorted;

// An edge's walker, and the points that it has still to hand out.
#[derive(Clone, Copy)]
pub struct Side {
    pub walker: line::Walker,
    pub left: u32,
}

// What a row has met so far: its first and last column, 131072 and -131073 where there is none; and the points handed out by all walkers, on this row and above.
#[derive(Clone, Copy)]
pub struct Met {
    pub low: i32,
    pub high: i32,
    pub count: u32,
}

// An edge on a row, and what the row has met with it.
#[derive(Clone, Copy)]
pub struct Run {
    pub side: Side,
    pub met: Met,
}

// The walks along the three edges, and the points handed out so far.
#[derive(Clone, Copy)]
pub struct Walk {
    pub a: Side,
    pub b: Side,
    pub c: Side,
    pub count: u32,
}

// The walks after a row, and the row's first and last column: 131072 and -131073 where it has none.
#[derive(Clone, Copy)]
pub struct Row {
    pub walk: Walk,
    pub low: i32,
    pub high: i32,
}

impl Run {
    // One more point of the edge.
    fn one_more(self) -> Self
        requires { Going self.side self.met × (0 < self.side.left) }
        ensures { (result.side.left + 1 ≡ self.side.left) × (result.met.count ≡ self.met.count + 1)
            × ((s e : Place) (n k : ℕ) → WalkedTo s e n k self.side.walker self.side.left → Taken s e n k self.met result) }
    {
        let stepped = self.side.walker.step();
        let column = stepped.point.0;
        Run {
            side: Side {
                walker: stepped.walker,
                left: self.side.left - 1,
            },
            met: Met {
                low: self.met.low.min(column),
                high: self.met.high.max(column),
                count: self.met.count + 1,
            },
        }
    }
}

impl Side {
    // Inside the library: the walk along the edge of an accepted triangle, at its start; along no point of it where it is not asked for.
    pub fn new(start: Point, end: Point, asked: bool) -> Self
        requires { Bounded start × Bounded end }
        ensures { WalkerAt start end 0 result.walker × (result.left ≡ asked_points asked start end) }
    {
        Side {
            walker: line::Walker::new(start, end),
            left: if asked {
                line::last_step(start, end) + 1
            } else {
                0
            },
        }
    }

    // All points of the edge on row y, if its walker has come to that row.
    fn on_row(self, met: Met, y: i32) -> Run
        requires { Going self met }
        ensures { (result.met.count + result.side.left ≡ met.count + self.left)
            × ((s e : Place) (n : ℕ) → s.1 ≤ℤ e.1 → EdgeAt s e n y self.walker self.left → Ran s e n y met result) }
    {
        let mut run = Run { side: self, met };
        for _ in 0..self.left {
            if run.side.walker.y != y {
                break;
            }
            run = run.one_more();
        }
        run
    }
}

impl Walk {
    // Inside the library: the walks of an accepted triangle of sorted vertices, at its top: along all its edges, or with zero area along p1 to
    // p3 alone.
    pub fn new(t: Sorted, solid: bool) -> Self
        requires { (Bounded t.p1 × Bounded t.p2 × Bounded t.p3) × Down t }
        ensures { WalkAt t solid t.p1.1 result }
    {
        Walk {
            a: Side::new(t.p1, t.p2, solid),
            b: Side::new(t.p1, t.p3, true),
            c: Side::new(t.p2, t.p3, solid),
            count: 0,
        }
    }

    // Inside the library: the points of the three edges on row y, the rows above having been taken.
    pub fn row(self, y: i32) -> Row
        requires { Rowing self }
        ensures { (t : Triangle) (solid : Bool) → WalkAt t solid y self → Rowed t solid y result }
    {
        let none = Met {
            low: 131072,
            high: -131073,
            count: self.count,
        };
        let first = self.a.on_row(none, y);
        let second = self.b.on_row(first.met, y);
        let third = self.c.on_row(second.met, y);
        Row {
            walk: Walk {
                a: first.side,
                b: second.side,
                c: third.side,
                count: third.met.count,
            },
            low: third.met.low,
            high: third.met.high,
        }
    }
}
