// The picture of a chart, and the place of a second and a load on it.
ghost use Rattle.std.specs.Prelude.{◌≡◌, ◌≤◌, ◌<◌, pos};
ghost use Rattle.charts.specs.Scale.{away, scaled};
ghost use Rattle.charts.specs.Picture.{picture, spot};

use crate::Extent;
use frames::Frame;
use geometry::Point;

// The frame that a chart is drawn on: 640 by 360 pixels of red, green and blue.
pub fn frame() -> Frame
    ensures { result ≡ picture }
{
    Frame::packed(640, 360, 24, true)
}

// How many pixels from 0 a number stands on a line of `size` pixels that ends at `most`, held at 130,000.
fn away(n: u64, most: u32, size: u32) -> i32
    requires { (n ≤ 2147483648) × (0 < most) × (size ≤ 640) }
    ensures { result ≡ pos (away most size n) }
{
    let pixels = n * (size as u64) / (most as u64);
    pixels.min(130000) as i32
}

// The same of a number that may be negative.
fn scaled(x: i32, most: u32, size: u32) -> i32
    requires { (0 < most) × (size ≤ 640) }
    ensures { result ≡ scaled most size x }
{
    let pixels = away(x.unsigned_abs() as u64, most, size);
    if x < 0 { -pixels } else { pixels }
}

// Inside the library: where a second and a load stand. Loads grow upwards.
pub fn spot(e: Extent, p: Point) -> Point
    requires { (0 < e.second) × (0 < e.load) }
    ensures { result ≡ spot e p }
{
    Point(
        24 + scaled(p.0, e.second, 600),
        335 - scaled(p.1, e.load, 320),
    )
}
