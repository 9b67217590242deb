// Going through a line field by field. A place in a line is that of a field's first byte; behind the last field it is the line's length and 1.
ghost use Rattle.std.specs.Prelude.{◌≡◌, ◌+◌, ◌≤◌, ◌<◌, length, MatchOption};
ghost use Rattle.text.specs.Fields.{fields, field_at, field_end, next_u32, next_i32, read_numbers, first_bad, bad_field};

use crate::parts::find;
use crate::read::{read_i32, read_u32};

// The field at `at`, and the place of the next one; nothing behind the last.
fn next_field(line: &[u8], at: usize) -> Option<(&[u8], usize)>
    ensures { MatchOption result (length line.now < at)
        (λ f. (at ≤ length line.now) × (f.0.now ≡ field_at line.now at) × (f.1 ≡ field_end line.now at + 1)) }
{
    let rest = line.get(at..)?;
    let end = find(rest, b'\t');
    Some((&rest[..end], at + end + 1))
}

// The unsigned number of the field at `at`, and the place of the next field.
pub fn next_u32(line: &[u8], at: usize) -> Option<(u32, usize)>
    ensures { result ≡ next_u32 line.now at }
{
    let (field, next) = next_field(line, at)?;
    Some((read_u32(field)?, next))
}

// The same of a signed number.
pub fn next_i32(line: &[u8], at: usize) -> Option<(i32, usize)>
    ensures { result ≡ next_i32 line.now at }
{
    let (field, next) = next_field(line, at)?;
    Some((read_i32(field)?, next))
}

// The signed numbers that a line of `N` fields is.
pub fn read_numbers<const N: usize>(line: &[u8]) -> Option<[i32; N]>
    ensures { result ≡ read_numbers N (fields line.now) }
{
    let mut numbers = [0; N];
    let mut at = 0;
    for number in &mut numbers {
        (*number, at) = next_i32(line, at)?;
    }
    (at == line.len() + 1).then_some(numbers)
}

// How many fields the line has.
fn field_count(line: &[u8]) -> usize
    ensures { result ≡ length (fields line.now) }
{
    line.iter().filter(|b| **b == b'\t').count() + 1
}

// Which field is the first that is no signed number, counted from 1.
fn first_bad(line: &[u8]) -> usize
    ensures { result ≡ first_bad (fields line.now) }
{
    line.split(|b| *b == b'\t')
        .take_while(|f| read_i32(f).is_some())
        .count()
        + 1
}

// What is wrong with a line that is not `count` signed numbers: which field, counted from 1, or 0 where it has another number of fields or more than 128
// bytes.
pub fn bad_field(line: &[u8], count: usize) -> usize
    ensures { (result ≡ bad_field count line.now) × (result ≤ 130) }
{
    if line.len() > 128 || field_count(line) != count {
        return 0;
    }
    first_bad(line)
}
