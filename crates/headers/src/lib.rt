// The header of an image file, read: the sides that it says, and where its pixels start.
#![tactic(auto)]

ghost use Rattle.std.specs.Prelude.{◌≡◌};
ghost use Rattle.headers.specs.Header.{kind, is_space, past, header_field, has_magic, maximum_at, header_of};

// Inside the library: what a header says: the sides, and where the pixels start.
#[derive(Clone, Copy)]
pub struct Header {
    pub width: u32,
    pub height: u32,
    pub start: usize,
}

// ---- the magic

// Inside the library: the digit behind the magic's `P`.
pub fn kind_of(depth: u32) -> u8
    ensures { result ≡ kind depth }
{
    match depth {
        1 => b'4',
        8 => b'5',
        _ => b'6',
    }
}

fn has_magic(file: &[u8], depth: u32) -> bool
    ensures { result ≡ has_magic depth file.now }
{
    file.len() > 1 && file[0] == b'P' && file[1] == kind_of(depth)
}

// ---- the fields

fn is_space(b: u8) -> bool
    ensures { result ≡ is_space b }
{
    (b == b' ') | (b == b'\t') | (b == b'\r') | (b == b'\n')
}

// The place behind the spaces, or behind the other bytes, that start at a place. A test that is handed over is no plainer than `spaces`: it is `is_space` or its opposite.
// The part behind the place, and no `skip`, which goes there byte by byte (docs/BENCHMARKS.md).
fn past_bytes(file: &[u8], at: usize, spaces: bool) -> usize
    ensures { result ≡ past spaces file.now at }
{
    let rest = &file[at.min(file.len())..];
    at + rest.iter().take_while(|b| is_space(**b) == spaces).count()
}

// The field that the spaces at a place lead to: its number, and the place behind it.
#[tactic(auto, unfolding(crate::specs::Header::number_from, crate::specs::Header::field_from, crate::specs::Header::header_field))]
fn read_field(file: &[u8], at: usize) -> Option<(u32, usize)>
    ensures { result ≡ header_field file.now at }
{
    let start = past_bytes(file, at, true);
    let end = past_bytes(file, start, false);
    if !((at < start) & (end < file.len())) {
        return None;
    }
    let value = text::read_digits(&file[start..end], 4, 9999)?;
    Some((value, end))
}

// The place behind the maximum, which a file of depth 1 has not.
#[tactic(auto, unfolding(crate::specs::Header::maximum_at))]
fn read_maximum(file: &[u8], at: usize, depth: u32) -> Option<usize>
    ensures { result ≡ maximum_at depth file.now at }
{
    if depth == 1 {
        return Some(at);
    }
    let (maximum, next) = read_field(file, at)?;
    (maximum == 255).then_some(next)
}

// ---- the whole

// Inside the library: what the header of a file for the depth says.
#[tactic(auto, unfolding(crate::specs::Header::header_of))]
pub fn read_header(file: &[u8], depth: u32) -> Option<Header>
    ensures { result ≡ header_of depth file.now }
{
    if !has_magic(file, depth) {
        return None;
    }
    let (width, at) = read_field(file, 2)?;
    let (height, at) = read_field(file, at)?;
    let last = read_maximum(file, at, depth)?;
    Some(Header {
        width,
        height,
        start: last + 1,
    })
}
