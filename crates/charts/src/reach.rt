// How far the axes reach: the largest second and the largest load of the wedge and of the samples, at least 1.
ghost use Rattle.std.specs.Prelude.{◌≡◌};
ghost use Rattle.text.specs.Fields.{lines};
ghost use Rattle.text.specs.Lines.{each};
ghost use Rattle.charts.specs.Scale.{larger, with_place, of_wedge, with_sample};

use crate::Extent;
use crate::lines::Lines;
use geometry::Point;
use readers::{Corners, read_point};

// The larger of two numbers, of which the first is not negative.
fn larger(n: u32, x: i32) -> u32
    ensures { result ≡ larger n x }
{
    (n as i64).max(x as i64) as u32
}

// With a place more.
fn with_place(e: Extent, p: Point) -> Extent
    ensures { result ≡ with_place e p }
{
    Extent {
        second: larger(e.second, p.0),
        load: larger(e.load, p.1),
    }
}

// Inside the library: the wedge alone.
pub fn of_wedge(t: Corners) -> Extent
    ensures { result ≡ of_wedge t }
{
    let least = Extent { second: 1, load: 1 };
    let one = with_place(least, t.a);
    let two = with_place(one, t.b);
    with_place(two, t.c)
}

// With a line more, if it is a sample.
fn with_sample(e: Extent, line: &[u8]) -> Extent
    ensures { result ≡ with_sample e line.now }
{
    match read_point(line) {
        Some(p) => with_place(e, p),
        None => e,
    }
}

// Inside the library: with the lines that are left.
pub fn with_samples(e: Extent, samples: Lines<'_>) -> Extent
    ensures { result ≡ each with_sample e (lines samples.entry.0.now) }
{
    let mut reach = e;
    for line in samples {
        reach = with_sample(reach, line);
    }
    reach
}
