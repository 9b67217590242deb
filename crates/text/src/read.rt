// Reading a number that takes up a whole slice.
ghost use Rattle.std.specs.Prelude.{◌≡◌, ◌&&◌, leb};
ghost use Rattle.std.specs.Bool.{then_some};
ghost use Rattle.text.specs.Digits.{is_digit, with_digit};
ghost use Rattle.text.specs.Read.{read_digits, read_u32, read_signed, read_i32};

// `v` with the digit `b` behind it, if `b` is one and the number is at most `most`.
fn lengthen(v: u32, b: u8, most: u32) -> Option<u32>
    ensures { result ≡ then_some (is_digit b && leb (with_digit v b) most) (with_digit v b) }
{
    if !b.is_ascii_digit() {
        return None;
    }
    let longer = v.checked_mul(10)?.checked_add(u32::from(b - b'0'))?;
    (longer <= most).then_some(longer)
}

// The number that `s` is: one to `limit` digits that mean at most `most`.
pub fn read_digits(s: &[u8], limit: usize, most: u32) -> Option<u32>
    ensures { result ≡ read_digits limit most s.now }
{
    if s.is_empty() || s.len() > limit {
        return None;
    }
    let mut v = 0;
    for b in s {
        v = lengthen(v, *b, most)?;
    }
    Some(v)
}

// The `u32` that `s` is: one to ten digits.
pub fn read_u32(s: &[u8]) -> Option<u32>
    ensures { result ≡ read_u32 s.now }
{
    read_digits(s, 10, u32::MAX)
}

// The `i32` that `s` is: one to `limit` digits after an optional minus. The least one is its own digits' negative only in 64 bits.
pub fn read_signed(s: &[u8], limit: usize) -> Option<i32>
    ensures { result ≡ read_signed limit s.now }
{
    if let Some(digits) = s.strip_prefix(b"-") {
        let n = read_digits(digits, limit, 2147483648)?;
        return Some(-(n as i64) as i32);
    }
    let n = read_digits(s, limit, 2147483647)?;
    Some(n as i32)
}

// The `i32` that `s` is: one to ten digits after an optional minus.
pub fn read_i32(s: &[u8]) -> Option<i32>
    ensures { result ≡ read_i32 s.now }
{
    read_signed(s, 10)
}
