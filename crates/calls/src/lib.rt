// The drawing calls on the lent bytes. The numbers of a line start at `at`.
#![tactic(auto)]

ghost use Rattle.std.specs.Prelude.{◌≡◌};
ghost use Rattle.drawing.specs.Drawing.{line_drawing, triangle_drawing, outline_drawing, connected_drawing};
ghost use Rattle.calls.specs.Draw.{pixel_call, fill_call, ends_and_colour, ends_call, corners_and_colour, corners_call, circle_call, draw_call};

use frames::Frame;
use geometry::Point;
use protocol::Reply;
use questions::ask;
use readers::{Corners, is_word, line_end, next_circle, next_corners, next_ends, next_point};

fn pixel(said: &[u8], at: usize, buf: &mut [u8], frame: Frame) -> Option<Reply>
    ensures { (result, buf.new) ≡ pixel_call said.now at frame buf.old }
{
    let (p, at) = next_point(said, at)?;
    let (colour, at) = text::next_u32(said, at)?;
    line_end(said, at)?;
    Some(framebuffer::set_pixel(buf, frame, p, colour).into())
}

fn fill(said: &[u8], at: usize, buf: &mut [u8], frame: Frame) -> Option<Reply>
    ensures { (result, buf.new) ≡ fill_call said.now at frame buf.old }
{
    let (colour, at) = text::next_u32(said, at)?;
    line_end(said, at)?;
    Some(framebuffer::fill(buf, frame, colour).into())
}

// A line's ends and its colour.
fn ends_and_colour(said: &[u8], at: usize) -> Option<((Point, Point), u32)>
    ensures { result ≡ ends_and_colour said.now at }
{
    let (ends, at) = next_ends(said, at)?;
    let (colour, at) = text::next_u32(said, at)?;
    line_end(said, at)?;
    Some((ends, colour))
}

fn line(said: &[u8], at: usize, buf: &mut [u8], frame: Frame) -> Option<Reply>
    ensures { (result, buf.new) ≡ ends_call line_drawing said.now at frame buf.old }
{
    let ((start, end), colour) = ends_and_colour(said, at)?;
    Some(drawing::draw_line(buf, frame, start, end, colour).into())
}

fn trace(said: &[u8], at: usize, buf: &mut [u8], frame: Frame) -> Option<Reply>
    ensures { (result, buf.new) ≡ ends_call connected_drawing said.now at frame buf.old }
{
    let ((start, end), colour) = ends_and_colour(said, at)?;
    Some(drawing::draw_connected_line(buf, frame, start, end, colour).into())
}

// A triangle's corners and its colour.
fn corners_and_colour(said: &[u8], at: usize) -> Option<(Corners, u32)>
    ensures { result ≡ corners_and_colour said.now at }
{
    let (corners, at) = next_corners(said, at)?;
    let (colour, at) = text::next_u32(said, at)?;
    line_end(said, at)?;
    Some((corners, colour))
}

fn triangle(said: &[u8], at: usize, buf: &mut [u8], frame: Frame) -> Option<Reply>
    ensures { (result, buf.new) ≡ corners_call triangle_drawing said.now at frame buf.old }
{
    let (t, colour) = corners_and_colour(said, at)?;
    Some(drawing::draw_triangle(buf, frame, t.a, t.b, t.c, colour).into())
}

fn outline(said: &[u8], at: usize, buf: &mut [u8], frame: Frame) -> Option<Reply>
    ensures { (result, buf.new) ≡ corners_call outline_drawing said.now at frame buf.old }
{
    let (t, colour) = corners_and_colour(said, at)?;
    Some(drawing::draw_outline(buf, frame, t.a, t.b, t.c, colour).into())
}

fn circle(said: &[u8], at: usize, buf: &mut [u8], frame: Frame) -> Option<Reply>
    ensures { (result, buf.new) ≡ circle_call said.now at frame buf.old }
{
    let ((topleft, diameter), at) = next_circle(said, at)?;
    let (colour, at) = text::next_u32(said, at)?;
    line_end(said, at)?;
    Some(drawing::draw_circle(buf, frame, topleft, diameter, colour).into())
}

// Makes the call that starts with the word; a line that starts with none of these words may be a question.
pub fn draw(word: &[u8], said: &[u8], at: usize, buf: &mut [u8], frame: Frame) -> Option<Reply>
    ensures { (result, buf.new) ≡ draw_call word.now said.now at frame buf.old }
{
    match word {
        w if is_word(w, b"pixel") => pixel(said, at, buf, frame),
        w if is_word(w, b"fill") => fill(said, at, buf, frame),
        w if is_word(w, b"line") => line(said, at, buf, frame),
        w if is_word(w, b"triangle") => triangle(said, at, buf, frame),
        w if is_word(w, b"outline") => outline(said, at, buf, frame),
        w if is_word(w, b"circle") => circle(said, at, buf, frame),
        w if is_word(w, b"trace") => trace(said, at, buf, frame),
        _ => ask(word, said, at),
    }
}
