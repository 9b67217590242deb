// What a line is answered, and writing it.
ghost use Rattle.std.specs.Prelude.{◌≡◌, ◌+◌, ◌≤◌, length};
ghost use Rattle.std.proofs.lemmas.List.Edits.{sets};
ghost use Rattle.protocol.specs.Reply.{bad_line, natural, value_field, one_line, two_line, reply_line, number_reply, count_reply, yes_reply, place_reply, columns_reply, run_reply};

use geometry::{Columns, Point};
use refusals::Refusal;
use triangle::RowRun;

// A value of an answer: unsigned, or signed.
#[derive(Clone, Copy)]
pub enum Value {
    Natural(u32),
    Whole(i32),
}

// An answer's number, alone or with one value or two.
#[derive(Clone, Copy)]
pub enum Reply {
    Number(u32),
    One(u32, Value),
    Two(u32, Value, Value),
}

// ---- answers of the library, each by its number and its values; with a refusal these are 0

impl From<Result<(), Refusal>> for Reply {
    ghost from_gives = { λ answer reply. reply ≡ number_reply answer };

    fn from(answer: Result<(), Refusal>) -> Self {
        match answer {
            Ok(()) => Reply::Number(0),
            Err(refusal) => Reply::Number(refusal.number()),
        }
    }
}

impl From<Result<u32, Refusal>> for Reply {
    ghost from_gives = { λ answer reply. reply ≡ count_reply answer };

    fn from(answer: Result<u32, Refusal>) -> Self {
        match answer {
            Ok(n) => Reply::One(0, Value::Natural(n)),
            Err(refusal) => Reply::One(refusal.number(), Value::Natural(0)),
        }
    }
}

// Yes is 1, no is 0.
impl From<Result<bool, Refusal>> for Reply {
    ghost from_gives = { λ answer reply. reply ≡ yes_reply answer };

    fn from(answer: Result<bool, Refusal>) -> Self {
        match answer {
            Ok(yes) => Reply::One(0, Value::Natural(u32::from(yes))),
            Err(refusal) => Reply::One(refusal.number(), Value::Natural(0)),
        }
    }
}

impl From<Result<Point, Refusal>> for Reply {
    ghost from_gives = { λ answer reply. reply ≡ place_reply answer };

    fn from(answer: Result<Point, Refusal>) -> Self {
        match answer {
            Ok(p) => Reply::Two(0, Value::Whole(p.0), Value::Whole(p.1)),
            Err(refusal) => Reply::Two(refusal.number(), Value::Whole(0), Value::Whole(0)),
        }
    }
}

impl From<Result<Columns, Refusal>> for Reply {
    ghost from_gives = { λ answer reply. reply ≡ columns_reply answer };

    fn from(answer: Result<Columns, Refusal>) -> Self {
        match answer {
            Ok(c) => Reply::Two(0, Value::Whole(c.0), Value::Whole(c.1)),
            Err(refusal) => Reply::Two(refusal.number(), Value::Whole(0), Value::Whole(0)),
        }
    }
}

impl From<Result<RowRun, Refusal>> for Reply {
    ghost from_gives = { λ answer reply. reply ≡ run_reply answer };

    fn from(answer: Result<RowRun, Refusal>) -> Self {
        match answer {
            Ok(r) => Reply::Two(0, Value::Whole(r.first), Value::Natural(r.count)),
            Err(refusal) => Reply::Two(refusal.number(), Value::Whole(0), Value::Natural(0)),
        }
    }
}

// ---- writing

fn write_natural(out: &mut [u8], at: usize, n: u32, stop: u8) -> usize
    requires { at + 11 ≤ length out.old }
    ensures { (result ≡ at + length (natural n stop)) × (out.new ≡ sets out.old at (natural n stop)) × (result ≤ at + 11) }
{
    let end = text::write_u32(out, at, n);
    out[end] = stop;
    end + 1
}

fn write_value(out: &mut [u8], at: usize, v: Value, stop: u8) -> usize
    requires { at + 12 ≤ length out.old }
    ensures { (result ≡ at + length (value_field v stop)) × (out.new ≡ sets out.old at (value_field v stop)) × (result ≤ at + 12) }
{
    match v {
        Value::Natural(n) => write_natural(out, at, n, stop),
        Value::Whole(z) => text::write_field(out, at, z, stop),
    }
}

fn write_one(out: &mut [u8], at: usize, number: u32, v: Value) -> usize
    requires { at + 23 ≤ length out.old }
    ensures { (result ≡ at + length (one_line number v)) × (out.new ≡ sets out.old at (one_line number v)) × (result ≤ at + 23) }
{
    let second = write_natural(out, at, number, b'\t');
    write_value(out, second, v, b'\n')
}

fn write_two(out: &mut [u8], at: usize, number: u32, v: Value, w: Value) -> usize
    requires { at + 35 ≤ length out.old }
    ensures { (result ≡ at + length (two_line number v w)) × (out.new ≡ sets out.old at (two_line number v w)) × (result ≤ at + 35) }
{
    let second = write_natural(out, at, number, b'\t');
    let third = write_value(out, second, v, b'\t');
    write_value(out, third, w, b'\n')
}

// Inside the library: the answer to a line that is none of the protocol's.
pub fn write_bad(out: &mut [u8], at: usize) -> usize
    requires { at + 9 ≤ length out.old }
    ensures { (result ≡ at + 9) × (out.new ≡ sets out.old at bad_line) }
{
    text::write_bytes(out, at, b"bad line\n")
}

// Inside the library: the line of a reply, of at most 35 bytes; none is for a line that is no request.
pub fn write_reply(out: &mut [u8], at: usize, reply: Option<Reply>) -> usize
    requires { at + 35 ≤ length out.old }
    ensures { (result ≡ at + length (reply_line reply)) × (out.new ≡ sets out.old at (reply_line reply)) × (result ≤ at + 35) }
{
    match reply {
        None => write_bad(out, at),
        Some(Reply::Number(number)) => write_natural(out, at, number, b'\n'),
        Some(Reply::One(number, v)) => write_one(out, at, number, v),
        Some(Reply::Two(number, v, w)) => write_two(out, at, number, v, w),
    }
}
