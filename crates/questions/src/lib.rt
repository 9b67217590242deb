// The questions on figures, each asked of the library. The numbers of a line start at `at`.
#![tactic(auto)]

ghost use Rattle.std.specs.Prelude.{◌≡◌};
ghost use Rattle.protocol.specs.Reply.{count_reply, yes_reply, place_reply};
ghost use Rattle.questions.specs.Ask.{Asked, ends_said, ends_and_step, ends_and_point};
ghost use Rattle.questions.specs.Ask.{inside_reply, span_reply, rows_reply, disc_reply, discspan_reply, ask_reply};

use geometry::Point;
use protocol::Reply;
use readers::{is_word, line_end, next_circle, next_corners, next_ends, next_point};
use refusals::Refusal;

// How many points a line has, the straight or the connected one.
fn length<F: Fn(Point, Point) -> Result<u32, Refusal>>(
    said: &[u8],
    at: usize,
    asked: F,
) -> Option<Reply>
    requires { F.IsAlwaysCallable asked }
    ensures { Asked (ends_said said.now at) (λ l a. F.post asked l.0 l.1 a) count_reply result }
{
    let ((start, end), at) = next_ends(said, at)?;
    line_end(said, at)?;
    Some(asked(start, end).into())
}

// Its point at a step.
fn point<F: Fn(Point, Point, u32) -> Result<Point, Refusal>>(
    said: &[u8],
    at: usize,
    asked: F,
) -> Option<Reply>
    requires { F.IsAlwaysCallable asked }
    ensures { Asked (ends_and_step said.now at) (λ l a. F.post asked l.0.0 l.0.1 l.1 a) place_reply result }
{
    let ((start, end), at) = next_ends(said, at)?;
    let (step, at) = text::next_u32(said, at)?;
    line_end(said, at)?;
    Some(asked(start, end, step).into())
}

// Whether a pixel is a point of it.
fn online<F: Fn(Point, Point, Point) -> Result<bool, Refusal>>(
    said: &[u8],
    at: usize,
    asked: F,
) -> Option<Reply>
    requires { F.IsAlwaysCallable asked }
    ensures { Asked (ends_and_point said.now at) (λ l a. F.post asked l.0.0 l.0.1 l.1 a) yes_reply result }
{
    let ((start, end), at) = next_ends(said, at)?;
    let (p, at) = next_point(said, at)?;
    line_end(said, at)?;
    Some(asked(start, end, p).into())
}

fn inside(said: &[u8], at: usize) -> Option<Reply>
    ensures { result ≡ inside_reply said.now at }
{
    let (t, at) = next_corners(said, at)?;
    let (p, at) = next_point(said, at)?;
    line_end(said, at)?;
    Some(triangle::contains(t.a, t.b, t.c, p).into())
}

fn span(said: &[u8], at: usize) -> Option<Reply>
    ensures { result ≡ span_reply said.now at }
{
    let (t, at) = next_corners(said, at)?;
    let (y, at) = text::next_i32(said, at)?;
    line_end(said, at)?;
    Some(triangle::row_span(t.a, t.b, t.c, y).into())
}

fn rows(said: &[u8], at: usize) -> Option<Reply>
    ensures { result ≡ rows_reply said.now at }
{
    let (t, at) = next_corners(said, at)?;
    line_end(said, at)?;
    Some(triangle::rows(t.a, t.b, t.c).into())
}

fn disc(said: &[u8], at: usize) -> Option<Reply>
    ensures { result ≡ disc_reply said.now at }
{
    let ((topleft, diameter), at) = next_circle(said, at)?;
    let (p, at) = next_point(said, at)?;
    line_end(said, at)?;
    Some(circle::contains(topleft, diameter, p).into())
}

fn discspan(said: &[u8], at: usize) -> Option<Reply>
    ensures { result ≡ discspan_reply said.now at }
{
    let ((topleft, diameter), at) = next_circle(said, at)?;
    let (y, at) = text::next_i32(said, at)?;
    line_end(said, at)?;
    Some(circle::row_span(topleft, diameter, y).into())
}

// The answer to the question that starts with the word; none, if the line is no question.
pub fn ask(word: &[u8], said: &[u8], at: usize) -> Option<Reply>
    ensures { result ≡ ask_reply word.now said.now at }
{
    match word {
        w if is_word(w, b"length") => length(said, at, line::major_length),
        w if is_word(w, b"point") => point(said, at, line::point),
        w if is_word(w, b"online") => online(said, at, line::has_point),
        w if is_word(w, b"inside") => inside(said, at),
        w if is_word(w, b"span") => span(said, at),
        w if is_word(w, b"rows") => rows(said, at),
        w if is_word(w, b"disc") => disc(said, at),
        w if is_word(w, b"discspan") => discspan(said, at),
        w if is_word(w, b"tracelength") => length(said, at, connected::length),
        w if is_word(w, b"tracepoint") => point(said, at, connected::point),
        w if is_word(w, b"ontrace") => online(said, at, connected::has_point),
        _ => None,
    }
}
