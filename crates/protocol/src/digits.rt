// Bytes as hexadecimal digits, written and read.
ghost use Rattle.std.specs.Prelude.{◌≡◌, true, ◌+◌, ◌≤◌, ◌<◌, length};
ghost use Rattle.std.specs.Option.{option_copied};
ghost use Rattle.std.proofs.lemmas.List.Edits.{sets};
ghost use Rattle.protocol.specs.Bytes.{hex_value, all_hex, is_hex, hex_bytes, hex_put};
ghost use Rattle.protocol.specs.Dump.{hex_digit, hex_text, dumped, dump_line};

use crate::reply::write_bad;
use readers::last_u32;

fn digit(v: u8) -> u8
    requires { v < 16 }
    ensures { result ≡ hex_digit v }
{
    if v < 10 {
        return b'0' + v;
    }
    87 + v
}

// Two digits a byte.
fn write_hex(out: &mut [u8], at: usize, bytes: &[u8]) -> usize
    requires { at + length (hex_text bytes.now) ≤ length out.old }
    ensures { (result ≡ at + length (hex_text bytes.now)) × (out.new ≡ sets out.old at (hex_text bytes.now)) }
{
    let mut filled = at;
    for b in bytes {
        out[filled] = digit(b / 16);
        out[filled + 1] = digit(b % 16);
        filled += 2;
    }
    filled
}

// The bytes of the buffer that the numbers of a `dump` ask for.
fn asked<'m>(said: &[u8], at: usize, memory: &'m [u8]) -> Option<&'m [u8]>
    ensures { option_copied result ≡ dumped said.now at memory.now }
{
    let (from, at) = text::next_u32(said, at)?;
    let count = last_u32(said, at, 4096)?;
    let start = from as usize;
    let end = start + count as usize;
    memory.get(start..end)
}

// Inside the library: the line that `dump` is answered, of at most 8,193 bytes.
pub fn dump(said: &[u8], at: usize, memory: &[u8], out: &mut [u8], to: usize) -> usize
    requires { to + 8193 ≤ length out.old }
    ensures { (result ≡ to + length (dump_line said.now at memory.now))
        × (out.new ≡ sets out.old to (dump_line said.now at memory.now)) × (result ≤ to + 8193) }
{
    let Some(bytes) = asked(said, at, memory) else {
        return write_bad(out, to);
    };
    let last = write_hex(out, to, bytes);
    out[last] = b'\n';
    last + 1
}

// ---- the way back

// The value of a digit.
fn digit_value(b: u8) -> Option<u8>
    ensures { result ≡ hex_value b }
{
    match b {
        b'0'..=b'9' => Some(b - b'0'),
        b'a'..=b'f' => Some(b - 87),
        _ => None,
    }
}

fn all_digits(s: &[u8]) -> bool
    ensures { result ≡ all_hex s.now }
{
    s.iter().all(|b| digit_value(*b).is_some())
}

// Whether digits are 1 to 48 bytes, two digits each.
fn is_hex(s: &[u8]) -> bool
    ensures { result ≡ is_hex s.now }
{
    let digits = all_digits(s);
    digits & (s.len() % 2 == 0) & (s.len() >= 2) & (s.len() <= 96)
}

// The bytes that digits are, from a place on.
fn put_pairs(out: &mut [u8], at: usize, digits: &[u8])
    requires { (all_hex digits.now ≡ true) × (at + length (hex_bytes digits.now) ≤ length out.old) }
    ensures { out.new ≡ sets out.old at (hex_bytes digits.now) }
{
    for i in 0..digits.len() / 2 {
        let high = digit_value(digits[i * 2]).unwrap_or(0);
        let low = digit_value(digits[i * 2 + 1]).unwrap_or(0);
        out[at + i] = high * 16 + low;
    }
}

// The bytes that digits are, from a place on, and whether they are bytes and all of them have a place; else no byte is touched.
pub fn put_hex(digits: &[u8], at: usize, memory: &mut [u8]) -> bool
    ensures { (result, memory.new) ≡ hex_put digits.now at memory.old }
{
    if !is_hex(digits) {
        return false;
    }
    if !text::has_room(memory.len(), at, digits.len() / 2) {
        return false;
    }
    put_pairs(memory, at, digits);
    true
}
