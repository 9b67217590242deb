// The report of `minutes`: how many samples a wedge contains. The first line is the wedge, a triangle of second of day against Mbit/s, and each
// further line a sample. They are counted line by line, as the input comes: that this is the count of the whole input is `any_parts` in proofs/Counting.antt.
ghost use Rattle.std.specs.Prelude.{◌≡◌, ◌+◌, ◌≤◌, length};
ghost use Rattle.std.proofs.lemmas.List.Edits.{sets};
ghost use Rattle.std.specs.Option.{is_some};
ghost use Rattle.text.specs.Lines.{handled};
ghost use Rattle.readers.specs.Figures.{corners_or_zero};
ghost use Rattle.reports.specs.Minutes.{Few, is_inside, with_sample, with_line, first_count, count_of, take_line, always, pair_line, trouble_line, count_line};

use crate::{Count, Samples, Tally, Trouble};
use geometry::{Point, Verdict};
use readers::{Corners, NO_TRIANGLE, read_corners, read_point};

// Whether the wedge contains a sample.
pub fn is_inside(t: Corners, p: Point) -> bool
    ensures { result ≡ is_inside t p }
{
    Verdict::from(triangle::contains(t.a, t.b, t.c, p)).yes
}

// A sample more, or one too many.
fn with_sample(t: Corners, k: Samples, p: Point) -> Count
    requires { k.inside ≤ k.all }
    ensures { result ≡ with_sample t k p }
{
    if k.all == u32::MAX {
        return Err(Trouble::TooLong);
    }
    Ok(Samples {
        inside: k.inside + u32::from(is_inside(t, p)),
        all: k.all + 1,
    })
}

// A line behind the wedge's: a sample, or a bad line. Behind what went wrong nothing counts.
fn with_line(t: Corners, k: Count, line: &[u8]) -> Count
    requires { Few k }
    ensures { result ≡ with_line t k line.now }
{
    let samples = k?;
    if let Some(p) = read_point(line) {
        return with_sample(t, samples, p);
    }
    Err(Trouble::Bad {
        line: samples.all as u64 + 2,
        field: text::bad_field(line, 2) as u32,
    })
}

// The count at the wedge's line, which is `line`, by the triangle that it is.
fn first_count(first: Option<Corners>, line: &[u8]) -> Count
    ensures { result ≡ first_count line.now (is_some first) (corners_or_zero first) }
{
    let Some(t) = first else {
        return Err(Trouble::Bad {
            line: 1,
            field: text::bad_field(line, 6) as u32,
        });
    };
    triangle::accept(t.a, t.b, t.c)?;
    Ok(Samples { inside: 0, all: 0 })
}

impl Tally {
    // Inside the library: the count so far. An input without a line lacks the wedge's.
    pub fn count(self) -> Count
        ensures { result ≡ count_of self }
    {
        match self {
            Tally::Fresh => Err(Trouble::Bad { line: 1, field: 0 }),
            Tally::Begun { count, .. } => count,
        }
    }

    // Inside the library: a line more.
    pub fn take_line(self, line: &[u8]) -> Tally
        requires { Few (count_of self) }
        ensures { result ≡ take_line self line.now }
    {
        match self {
            Tally::Begun { wedge, count } => Tally::Begun {
                wedge,
                count: with_line(wedge, count, line),
            },
            Tally::Fresh => {
                let first = read_corners(line);
                Tally::Begun {
                    wedge: first.unwrap_or(NO_TRIANGLE),
                    count: first_count(first, line),
                }
            }
        }
    }

    // Inside the library: the lines of `input` that LF ends, from `from` on: how far they are taken, and the tally then.
    pub fn take_lines(self, input: &[u8], from: usize) -> (usize, Tally)
        requires { Few (count_of self) × (from ≤ length input.now) }
        ensures { result ≡ handled always take_line input.now (length input.now) from self }
    {
        let mut next = from;
        let mut tally = self;
        // No `for` over `split_inclusive`: its last line may lack an LF, and how far the lines are taken would be counted by hand all the same.
        loop {
            let end = text::part_end(input, next, b'\n');
            if end == input.len() {
                return (next, tally);
            }
            tally = tally.take_line(&input[next..end]);
            next = end + 1;
        }
    }
}

// A word, and two numbers behind it, parted by a tab, in a line.
fn write_pair(out: &mut [u8], at: usize, word: &[u8], a: u64, b: u64) -> usize
    requires { at + length (pair_line word.now a b) ≤ length out.old }
    ensures { (result ≡ at + length (pair_line word.now a b)) × (out.new ≡ sets out.old at (pair_line word.now a b)) }
{
    let first = text::write_bytes(out, at, word);
    let second = text::write_number(out, first, a, b'\t');
    text::write_number(out, second, b, b'\n')
}

// What is said of what went wrong.
fn write_trouble(out: &mut [u8], at: usize, e: Trouble) -> usize
    requires { at + 41 ≤ length out.old }
    ensures { (result ≡ at + length (trouble_line e)) × (out.new ≡ sets out.old at (trouble_line e)) × (result ≤ at + 41) }
{
    match e {
        Trouble::Refused(refusal) => {
            text::write_counted(out, at, b"refused\t", refusal.number())
        }
        Trouble::TooLong => text::write_bytes(out, at, b"too long\n"),
        Trouble::Bad { line, field } => write_pair(out, at, b"bad line\t", line, field as u64),
    }
}

// Inside the library: what `minutes` prints, a line of at most 41 bytes.
pub fn write_count(out: &mut [u8], at: usize, k: Count) -> usize
    requires { at + 41 ≤ length out.old }
    ensures { (result ≡ at + length (count_line k)) × (out.new ≡ sets out.old at (count_line k)) × (result ≤ at + 41) }
{
    match k {
        Ok(samples) => write_pair(
            out,
            at,
            b"inside\t",
            samples.inside as u64,
            samples.all as u64,
        ),
        Err(e) => write_trouble(out, at, e),
    }
}
