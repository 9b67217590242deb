// Lists the spans of a triangle: the first line of the standard input is its six coordinates, parted by tabs. What is written is the definition
// `spans` of the crate `reports`: `bad line`, or `refused` and the number, or `rows`, how many, and a line a row.
#![tactic(auto)]

ghost use Rattle.std.specs.Prelude.{◌≡◌, false, not, ◌&&◌, ◌+◌, length, IfOk};
ghost use Rattle.streams.specs.State.{Within, goes_on};
ghost use Rattle.streams.specs.Refill.{whole};
ghost use Rattle.reports.specs.Spans.{report, Next};

use readers::Corners;
use std::io;
use streams::{Input, State};

// Reads until a line is there: up to its LF, or to the end of the input. Of a line that LF does not end yet 129 bytes are kept, which is more than a line
// of six coordinates has.
fn read_line(rt: &HostRuntime, input: &mut [u8]) -> State
    requires { length input.old ≡ 65536 }
    ensures { Within result × ((not (whole input.new result) && goes_on result) ≡ false) }
{
    let mut st = State::start();
    // No `for`: the turns are as many as it takes until a line is there, or the state says that the input has ended.
    while !st.has_line(input) && st.goes_on() {
        st = st.refill(rt, input);
    }
    st
}

// Hands the first `end` bytes over to `write`, which are the report's behind the `told` that were handed over before: so many more, if they were taken.
fn hand_over(
    rt: &HostRuntime,
    out: &[u8],
    end: usize,
    told: u64,
    v: Option<Corners>,
) -> io::Result<u64>
    requires { Next v told end out.now }
    ensures { IfOk result (λ sum. sum ≡ told + end) }
{
    console::write(rt, out, end)?;
    Ok(told + end as u64)
}

// Hands the report over, part after part and each behind the last, until one is not taken: as many bytes as it has, if all were.
fn list(rt: &HostRuntime, out: &mut [u8], v: Option<Corners>) -> io::Result<u64>
    requires { length out.old ≡ 65536 }
    ensures { IfOk result (λ told. told ≡ length (report v)) }
{
    let mut part = reports::first_part(out, v);
    let mut told = hand_over(rt, out, part.end, 0, v)?;
    // No `for`: a part says itself how many rows are left behind it.
    while part.left > 0 {
        part = reports::next_part(out, v, part);
        told = hand_over(rt, out, part.end, told, v)?;
    }
    Ok(told)
}

fn main(rt: HostRuntime) {
    let mut input = [0u8; 65536];
    let mut out = [0u8; 65536];
    let st = read_line(&rt, &mut input);
    if let Input::Unread = st.input {
        st.complain(&rt);
        return;
    }
    let end = st.end;
    let v = readers::first_corners(&input[..end]);
    // A write that failed is said already.
    let _ = list(&rt, &mut out, v);
}
