// Rectangles of a frame, and the steps of a walk that one holds.
#![tactic(auto)]

ghost use Rattle.std.specs.Prelude.{◌≡◌, ◌≤◌, ◌<◌, pos};
ghost use Rattle.whole.specs.Interval.{between};
ghost use Rattle.geometry.specs.Bound.{Coord};
ghost use Rattle.windows.specs.Window.{in_window, clipped, Small};
ghost use Rattle.windows.specs.Interval.{Held};

use std::ops::Range;

// Inside the library: a rectangle of a frame, from column `left` and row `top` to one before `right` and `bottom`.
#[derive(Debug, Clone, Copy, PartialEq, Eq, Hash)]
pub struct Window {
    pub left: u32,
    pub top: u32,
    pub right: u32,
    pub bottom: u32,
}

// Inside the library: whether x lies from low to one before high.
pub fn is_between(x: i32, low: u32, high: u32) -> bool
    requires { (low ≤ high) × (high ≤ 2048) }
    ensures { result ≡ between (pos low) (pos high) x }
{
    (low as i32 <= x) & (x < high as i32)
}

impl Window {
    // Inside the library: whether the rectangle of a frame holds a place.
    pub fn holds(self, x: i32, y: i32) -> bool
        requires { Small self }
        ensures { result ≡ in_window self x y }
    {
        is_between(x, self.left, self.right) & is_between(y, self.top, self.bottom)
    }
}

// Inside the library: the nearest number of low to high.
pub fn clip(x: i32, low: u32, high: u32) -> u32
    requires { (low ≤ high) × (high ≤ 262144) }
    ensures { result ≡ clipped x low high }
{
    x.clamp(low as i32, high as i32) as u32
}

// Inside the library: of the steps below count, each of which takes a coordinate one place on from a, upwards if it grows, those that take it to a place from low
// to one before high.
pub fn held(a: i32, grows: bool, low: u32, high: u32, count: u32) -> Range<u32>
    requires { Coord a × (low ≤ 2048) × (high ≤ 2048) × (count ≤ 262144) }
    ensures { Held a grows low high count result }
{
    let to_low = low as i32 - a;
    let to_high = high as i32 - a;
    if grows {
        clip(to_low, 0, count)..clip(to_high, 0, count)
    } else {
        clip(1 - to_high, 0, count)..clip(1 - to_low, 0, count)
    }
}
