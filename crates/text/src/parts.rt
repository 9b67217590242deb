// The parts of a text: where one ends, and what of an unfinished one is kept.
ghost use Rattle.std.specs.Prelude.{◌≡◌, ◌+◌, ◌≤◌, length, drop};
ghost use Rattle.std.proofs.lemmas.List.Edits.{sets};
ghost use Rattle.text.specs.Fields.{until, fields, read_numbers};
ghost use Rattle.text.specs.Lines.{first_line, kept_part};

use crate::fields::read_numbers;

// Where the first `stop` of `s` stands; the length of `s`, where there is none.
pub fn find(s: &[u8], stop: u8) -> usize
    ensures { result ≡ until stop s.now }
{
    s.iter().position(|b| *b == stop).unwrap_or(s.len())
}

// Inside the library: where the part that starts at `at` ends: at the next `stop`, or with `s`.
pub fn part_end(s: &[u8], at: usize, stop: u8) -> usize
    requires { at ≤ length s.now }
    ensures { result ≡ at + until stop (drop at s.now) }
{
    at + find(&s[at..], stop)
}

// The signed numbers that the first line of `input` is, of `N` fields.
pub fn first_numbers<const N: usize>(input: &[u8]) -> Option<[i32; N]>
    ensures { result ≡ read_numbers N (fields (first_line input.now)) }
{
    let end = find(input, b'\n');
    read_numbers(&input[..end])
}

// Inside the library: moves the bytes from `from` up to `end`, at most `most` of them, to the front, and answers how many they are.
pub fn keep(buf: &mut [u8], from: usize, end: usize, most: usize) -> usize
    requires { (from ≤ end) × (end ≤ length buf.old) }
    ensures { (result ≡ length (kept_part buf.old from end most)) × (buf.new ≡ sets buf.old 0 (kept_part buf.old from end most)) }
{
    let count = (end - from).min(most);
    buf.copy_within(from..from + count, 0);
    count
}
