// The numbers of a line, read as the figures that they describe. Places in a line are those of the crate text.
ghost use Rattle.std.specs.Prelude.{◌≡◌};
ghost use Rattle.text.specs.Lines.{first_line};
ghost use Rattle.readers.specs.Figures.{line_end, last_u32, next_point, next_ends, next_corners, next_circle, point_of, corners_of, read_point, read_corners};

use geometry::Point;

// A triangle's corners, in the order in which they were given.
#[derive(Clone, Copy)]
pub struct Corners {
    pub a: Point,
    pub b: Point,
    pub c: Point,
}

// What stands for a triangle where there is none.
pub const NO_TRIANGLE: Corners = Corners {
    a: Point(0, 0),
    b: Point(0, 0),
    c: Point(0, 0),
};

// Nothing, unless the line ends at `at`: it is the place behind the last field.
pub fn line_end(said: &[u8], at: usize) -> Option<()>
    ensures { result ≡ line_end said.now at }
{
    (at == said.len() + 1).then_some(())
}

// The number at `at`, if it is the last of the line and at most `most`.
pub fn last_u32(said: &[u8], at: usize, most: u32) -> Option<u32>
    ensures { result ≡ last_u32 most said.now at }
{
    let (value, at) = text::next_u32(said, at)?;
    line_end(said, at)?;
    (value <= most).then_some(value)
}

// The two coordinates at `at`, and the place of the next field.
pub fn next_point(said: &[u8], at: usize) -> Option<(Point, usize)>
    ensures { result ≡ next_point said.now at }
{
    let (x, at) = text::next_i32(said, at)?;
    let (y, at) = text::next_i32(said, at)?;
    Some((Point(x, y), at))
}

// The same of a line's two ends.
pub fn next_ends(said: &[u8], at: usize) -> Option<((Point, Point), usize)>
    ensures { result ≡ next_ends said.now at }
{
    let (start, at) = next_point(said, at)?;
    let (end, at) = next_point(said, at)?;
    Some(((start, end), at))
}

// The same of three corners.
pub fn next_corners(said: &[u8], at: usize) -> Option<(Corners, usize)>
    ensures { result ≡ next_corners said.now at }
{
    let ((a, b), at) = next_ends(said, at)?;
    let (c, at) = next_point(said, at)?;
    Some((Corners { a, b, c }, at))
}

// The same of a circle's top-left and diameter.
pub fn next_circle(said: &[u8], at: usize) -> Option<((Point, u32), usize)>
    ensures { result ≡ next_circle said.now at }
{
    let (topleft, at) = next_point(said, at)?;
    let (diameter, at) = text::next_u32(said, at)?;
    Some(((topleft, diameter), at))
}

// ---- a whole line

fn point_of(numbers: [i32; 2]) -> Point
    ensures { result ≡ point_of numbers }
{
    let [x, y] = numbers;
    Point(x, y)
}

impl From<[i32; 6]> for Corners {
    ghost from_gives = { λ v t. t ≡ corners_of v };

    fn from([x1, y1, x2, y2, x3, y3]: [i32; 6]) -> Corners {
        Corners {
            a: Point(x1, y1),
            b: Point(x2, y2),
            c: Point(x3, y3),
        }
    }
}

// Inside the library: the point that a line of two coordinates is.
pub fn read_point(line: &[u8]) -> Option<Point>
    ensures { result ≡ read_point line.now }
{
    text::read_numbers(line).map(point_of)
}

// Inside the library: the triangle that a line of six is.
pub fn read_corners(line: &[u8]) -> Option<Corners>
    ensures { result ≡ read_corners line.now }
{
    text::read_numbers(line).map(Corners::from)
}

// Inside the library: the triangle that the first line of `input` is.
pub fn first_corners(input: &[u8]) -> Option<Corners>
    ensures { result ≡ read_corners (first_line input.now) }
{
    text::first_numbers(input).map(Corners::from)
}
