// The report of `spans`: a first line, and a line a row, in parts for which a buffer of 64 KiB has room. That the parts, one behind the other, are the report
// is `all_parts` in proofs/Report.antt.
ghost use Rattle.std.specs.Prelude.{◌≡◌, ◌+◌, ◌*◌, ◌≤◌, pos, ◌+ℤ◌, ◌≤ℤ◌, length};
ghost use Rattle.std.proofs.lemmas.List.Edits.{sets};
ghost use Rattle.reports.specs.Spans.{found, rows_of, heading, row_of, row_line, row_lines, first_part, part_text, next_part};
ghost use Rattle.std.specs.Option.{is_some};

use crate::Part;
use geometry::Span;
use readers::{Corners, NO_TRIANGLE};
use refusals::Refusal;
use triangle::RowRun;

// The rows of the triangle that was read, or its refusal; None where the line is another.
pub fn rows_of(v: Option<Corners>) -> Option<Result<RowRun, Refusal>>
    ensures { (is_some result ≡ is_some v) × (found result ≡ rows_of v) }
{
    let t = v?;
    Some(triangle::rows(t.a, t.b, t.c))
}

// The columns of row `y`.
fn row_of(t: Corners, y: i32) -> Span
    ensures { result ≡ row_of t y }
{
    triangle::row_span(t.a, t.b, t.c, y).into()
}

// The first line of a report, of at most 19 bytes: what kind of line was read, or how many rows follow.
fn write_heading(out: &mut [u8], at: usize, rows: Option<Result<RowRun, Refusal>>) -> usize
    requires { at + 19 ≤ length out.old }
    ensures { (result ≡ at + length (heading (is_some rows) (found rows))) × (out.new ≡ sets out.old at (heading (is_some rows) (found rows))) }
{
    let Some(answer) = rows else {
        return text::write_bad(out, at);
    };
    match answer {
        Ok(found) => text::write_counted(out, at, b"rows\t", found.count),
        Err(refusal) => text::write_counted(out, at, b"refused\t", refusal.number()),
    }
}

// The line of row `y`, of at most 36 bytes: the row, its first column, and one past the last.
fn write_row(out: &mut [u8], at: usize, t: Corners, y: i32) -> usize
    requires { at + 36 ≤ length out.old }
    ensures { (result ≡ at + length (row_line t y)) × (out.new ≡ sets out.old at (row_line t y)) }
{
    let s = row_of(t, y);
    text::write_triple(out, at, y, s.start, s.end, b'\n')
}

// The lines of `count` rows from `first` on.
fn write_rows(out: &mut [u8], at: usize, t: Corners, first: i32, count: u32) -> usize
    requires { (at + 36 * count ≤ length out.old) × ((first +ℤ pos count) ≤ℤ pos 131072) }
    ensures { (result ≡ at + length (row_lines t first count)) × (out.new ≡ sets out.old at (row_lines t first count)) }
{
    let mut y = first;
    let mut filled = at;
    for _ in 0..count {
        filled = write_row(out, filled, t, y);
        y += 1;
    }
    filled
}

// Inside the library: the first line, and which rows follow it.
pub fn first_part(out: &mut [u8], v: Option<Corners>) -> Part
    requires { length out.old ≡ 65536 }
    ensures { (result ≡ first_part v) × (out.new ≡ sets out.old 0 (heading (is_some v) (rows_of v))) }
{
    let rows = rows_of(v);
    let end = write_heading(out, 0, rows);
    let Some(Ok(run)) = rows else {
        return Part {
            end,
            first: 0,
            left: 0,
        };
    };
    Part {
        end,
        first: run.first,
        left: run.count,
    }
}

// Inside the library: the part behind `p`, from the buffer's start on: at most 1,024 rows.
pub fn next_part(out: &mut [u8], v: Option<Corners>, p: Part) -> Part
    requires { (length out.old ≡ 65536) × ((p.first +ℤ pos p.left) ≤ℤ pos 131072) }
    ensures { (result ≡ next_part v p) × (out.new ≡ sets out.old 0 (part_text v p)) }
{
    let count = p.left.min(1024);
    let end = write_rows(out, 0, v.unwrap_or(NO_TRIANGLE), p.first, count);
    Part {
        end,
        first: p.first + count as i32,
        left: p.left - count,
    }
}
