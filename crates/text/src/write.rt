// Writing text into a lent buffer, from a place on. Each function answers the next place, and leaves every byte but its own as it was.
ghost use Rattle.std.specs.Prelude.{◌≡◌, ◌+◌, ◌≤◌, leb, length, set};
ghost use Rattle.std.proofs.lemmas.List.Edits.{sets};
ghost use Rattle.text.specs.Words.{bad_line, numbered, counted};
ghost use Rattle.text.specs.Show.{shown, last_digits, shown_signed, number_field, triple};

// Inside the library: whether a buffer of `length` bytes that is filled up to `at` has room for `most` more.
pub fn has_room(length: usize, at: usize, most: usize) -> bool
    ensures { result ≡ leb (at + most) length }
{
    at.checked_add(most).is_some_and(|end| end <= length)
}

// Inside the library: how many digits the text of `v` has.
pub fn digit_count(v: u64) -> usize
    ensures { result ≡ length (shown v) }
{
    v.max(1).ilog10() as usize + 1
}

// The last `count` digits of `v`, from the last on.
fn put_digits(buf: &mut [u8], at: usize, count: usize, v: u64)
    requires { at + count ≤ length buf.old }
    ensures { buf.new ≡ sets buf.old at (last_digits count v) }
{
    let mut rest = v;
    for i in (0..count).rev() {
        buf[at + i] = b'0' + (rest % 10) as u8;
        rest /= 10;
    }
}

// Inside the library: the text of `v`.
pub fn write_u64(buf: &mut [u8], at: usize, v: u64) -> usize
    requires { at + length (shown v) ≤ length buf.old }
    ensures { (result ≡ at + length (shown v)) × (buf.new ≡ sets buf.old at (shown v)) }
{
    let count = digit_count(v);
    put_digits(buf, at, count, v);
    at + count
}

// Inside the library: the same of a number of 32 bits.
pub fn write_u32(buf: &mut [u8], at: usize, v: u32) -> usize
    requires { at + length (shown v) ≤ length buf.old }
    ensures { (result ≡ at + length (shown v)) × (buf.new ≡ sets buf.old at (shown v)) }
{
    write_u64(buf, at, v as u64)
}

// Inside the library: the text of `v`, a minus first where it is negative.
pub fn write_i32(buf: &mut [u8], at: usize, v: i32) -> usize
    requires { at + length (shown_signed v) ≤ length buf.old }
    ensures { (result ≡ at + length (shown_signed v)) × (buf.new ≡ sets buf.old at (shown_signed v)) }
{
    let digits = v.unsigned_abs();
    if v < 0 {
        buf[at] = b'-';
        return write_u32(buf, at + 1, digits);
    }
    write_u32(buf, at, digits)
}

// Inside the library: the bytes of `s`.
pub fn write_bytes(buf: &mut [u8], at: usize, s: &[u8]) -> usize
    requires { at + length s.now ≤ length buf.old }
    ensures { (result ≡ at + length s.now) × (buf.new ≡ sets buf.old at s.now) }
{
    let end = at + s.len();
    buf[at..end].copy_from_slice(s);
    end
}

// The byte `b`.
fn write_byte(buf: &mut [u8], at: usize, b: u8) -> usize
    requires { at + 1 ≤ length buf.old }
    ensures { (result ≡ at + 1) × (buf.new ≡ set buf.old at b) }
{
    buf[at] = b;
    at + 1
}

// Inside the library: the text of `v` and the byte `stop` behind it.
pub fn write_field(buf: &mut [u8], at: usize, v: i32, stop: u8) -> usize
    requires { at + length (number_field v stop) ≤ length buf.old }
    ensures { (result ≡ at + length (number_field v stop)) × (buf.new ≡ sets buf.old at (number_field v stop)) }
{
    let end = write_i32(buf, at, v);
    write_byte(buf, end, stop)
}

// Inside the library: `a`, `b` and `c`, parted by tabs, and the byte `stop` behind them. With LF it is a row of a list.
pub fn write_triple(buf: &mut [u8], at: usize, a: i32, b: i32, c: i32, stop: u8) -> usize
    requires { at + length (triple a b c stop) ≤ length buf.old }
    ensures { (result ≡ at + length (triple a b c stop)) × (buf.new ≡ sets buf.old at (triple a b c stop)) }
{
    let second = write_field(buf, at, a, b'\t');
    let third = write_field(buf, second, b, b'\t');
    write_field(buf, third, c, stop)
}

// Inside the library: a number without a sign, and the byte `stop` behind it.
pub fn write_number(buf: &mut [u8], at: usize, n: u64, stop: u8) -> usize
    requires { at + length (numbered n stop) ≤ length buf.old }
    ensures { (result ≡ at + length (numbered n stop)) × (buf.new ≡ sets buf.old at (numbered n stop)) }
{
    let end = write_u64(buf, at, n);
    write_byte(buf, end, stop)
}

// Inside the library: a word, and a number behind it, in a line.
pub fn write_counted(buf: &mut [u8], at: usize, word: &[u8], n: u32) -> usize
    requires { at + length (counted word.now n) ≤ length buf.old }
    ensures { (result ≡ at + length (counted word.now n)) × (buf.new ≡ sets buf.old at (counted word.now n)) }
{
    let middle = write_bytes(buf, at, word);
    write_number(buf, middle, n as u64, b'\n')
}

// Inside the library: what is said of a line that says nothing that a program knows.
pub fn write_bad(buf: &mut [u8], at: usize) -> usize
    requires { at + 9 ≤ length buf.old }
    ensures { (result ≡ at + 9) × (buf.new ≡ sets buf.old at bad_line) }
{
    write_bytes(buf, at, b"bad line\n")
}
