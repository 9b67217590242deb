// Drawing the day of an input: call by call, and a line after the other.
ghost use Rattle.std.specs.Prelude.{◌≡◌, ◌<◌, length};
ghost use Rattle.frames.specs.Judged.{Over};
ghost use Rattle.text.specs.Fields.{lines};
ghost use Rattle.charts.specs.Picture.{picture};
ghost use Rattle.charts.specs.Day.{leaves, box, under, is_shown, disc_colour, disc, discs, day, charted};

use crate::Extent;
use crate::judge::count;
use crate::lines::Lines;
use crate::picture::{frame, spot};
use crate::reach::{of_wedge, with_samples};
use frames::{Canvas, Frame};
use geometry::Point;
use readers::{Corners, NO_TRIANGLE, first_corners, read_point};
use reports::Count;

const GROUND: u32 = 0xFFFFFF;

const FILLING: u32 = 0xD6E4F0;

const INK: u32 = 0x404040;

const INSIDE: u32 = 0x0060A8;

const OUTSIDE: u32 = 0xD04010;

// A rectangle, as two triangles.
fn draw_box(pane: &mut [u8], f: Frame, p: Point, q: Point, colour: u32)
    ensures { pane.new ≡ leaves f (box p q colour) pane.old }
{
    let _ = drawing::draw_triangle(pane, f, p, Point(q.0, p.1), q, colour);
    let _ = drawing::draw_triangle(pane, f, p, Point(p.0, q.1), q, colour);
}

// All but the samples. The margins go over what of the wedge lies below 0.
fn draw_under(pane: &mut [u8], f: Frame, e: Extent, t: Corners)
    requires { (0 < e.second) × (0 < e.load) }
    ensures { pane.new ≡ leaves f (under e t) pane.old }
{
    let a = spot(e, t.a);
    let b = spot(e, t.b);
    let c = spot(e, t.c);
    let _ = framebuffer::fill(pane, f, GROUND);
    let _ = drawing::draw_triangle(pane, f, a, b, c, FILLING);
    draw_box(pane, f, Point(0, 0), Point(23, 359), GROUND);
    draw_box(pane, f, Point(0, 336), Point(639, 359), GROUND);
    let _ = drawing::draw_line(pane, f, Point(24, 335), Point(624, 335), INK);
    let _ = drawing::draw_line(pane, f, Point(24, 335), Point(24, 15), INK);
}

// Whether a sample is on the picture.
fn is_shown(p: Point) -> bool
    ensures { result ≡ is_shown p }
{
    !(p.0 < 0) && !(p.1 < 0)
}

// The colour of a sample's disc, by the numbers as they came.
fn disc_colour(t: Corners, p: Point) -> u32
    ensures { result ≡ disc_colour t p }
{
    if reports::is_inside(t, p) {
        INSIDE
    } else {
        OUTSIDE
    }
}

// A sample's disc, if the line is a sample. All samples go on one canvas, which is judged once.
fn draw_sample(pane: &mut [u8], canvas: Canvas, e: Extent, t: Corners, p: Option<Point>)
    requires { Over canvas (length pane.old) × (0 < e.second) × (0 < e.load) }
    ensures { pane.new ≡ leaves canvas.frame (disc e t p) pane.old }
{
    let Some(sample) = p else {
        return;
    };
    if is_shown(sample) {
        let s = spot(e, sample);
        let colour = disc_colour(t, sample);
        let _ = drawing::circle_on(pane, canvas, Point(s.0 - 1, s.1 - 1), 3, colour);
    }
}

// The samples of the lines that are left.
fn draw_samples(pane: &mut [u8], canvas: Canvas, e: Extent, t: Corners, samples: Lines<'_>)
    requires { Over canvas (length pane.old) × (0 < e.second) × (0 < e.load) }
    ensures { pane.new ≡ leaves canvas.frame (discs e t (lines samples.entry.0.now)) pane.old }
{
    for line in samples {
        draw_sample(pane, canvas, e, t, read_point(line));
    }
}

// The day of an input that `minutes` counts.
fn draw_good(pane: &mut [u8], input: &[u8])
    ensures { pane.new ≡ leaves picture (day input.now) pane.old }
{
    let wedge = first_corners(input).unwrap_or(NO_TRIANGLE);
    // The wedge's line is no sample.
    let mut samples = Lines(input);
    samples.next();
    let e = with_samples(of_wedge(wedge), samples);
    let f = frame();
    draw_under(pane, f, e, wedge);
    draw_samples(pane, f.over(pane.len()), e, wedge, samples);
}

// Draws the day of an input over a frame of `frame`, and answers what `minutes` counts. An input that is not counted is not drawn.
pub fn draw_day(pane: &mut [u8], input: &[u8]) -> Count
    ensures { (result, pane.new) ≡ charted input.now pane.old }
{
    let k = count(input);
    if k.is_ok() {
        draw_good(pane, input);
    }
    k
}
