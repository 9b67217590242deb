// Counts the samples that a planned-load wedge contains. The first line of the standard input is the wedge, six coordinates of second of day against
// Mbit/s, and each further line a sample, second and Mbit/s, fields parted by tabs. The input is of any length: a line and a count are kept. What is counted
// is the definition `minutes` of the crate `reports`, and what is written its `count_line`; if a read fails, nothing is written but a line on standard error.
#![tactic(auto)]

ghost use Rattle.std.specs.Prelude.{◌≡◌, ◌≤◌, length};
ghost use Rattle.streams.specs.State.{Within};
ghost use Rattle.streams.specs.Run.{Ended};
ghost use Rattle.reports.specs.Minutes.{Few, fresh, count_of};
ghost use Rattle.minutes.specs.Counted.{counted_some, counted_last, told, bytes, lines, last};

use reports::{Count, Tally};
use streams::{Input, State};

// Counts the lines that are there and that LF ends.
fn count_some(input: &[u8], st: State, tally: Tally) -> (usize, Tally)
    requires { Within st × (length input.now ≡ 65536) × Few (count_of tally) }
    ensures { result ≡ counted_some input.now st tally }
{
    let end = st.end;
    tally.take_lines(&input[..end], st.next)
}

// Counts a last line that lacks its LF.
fn count_last(input: &[u8], st: State, tally: Tally) -> Tally
    requires { Within st × (length input.now ≡ 65536) × Few (count_of tally) }
    ensures { result ≡ counted_last input.now st tally }
{
    if !st.has_last() {
        return tally;
    }
    let next = st.next;
    let end = st.end;
    tally.take_line(&input[next..end])
}

// Puts the count into the output, once the input has ended.
fn tell(out: &mut [u8], st: State, k: Count) -> State
    requires { length out.old ≡ 64 }
    ensures { ((result, out.new) ≡ told st k out.old) × (result.at ≤ 64) }
{
    match st.input {
        Input::More | Input::Unread => st.stands_at(st.next, 0),
        Input::End => {
            let at = reports::write_count(out, 0, k);
            st.stands_at(st.end, at)
        }
    }
}

// Turn after turn, until the input ends.
fn run(rt: &HostRuntime, input: &mut [u8], out: &mut [u8]) -> State
    requires { (length input.old ≡ 65536) × (length out.old ≡ 64) }
    ensures { Ended bytes lines last (fresh, out.old) result input.new out.new }
{
    let mut st = State::start();
    let mut tally = Tally::Fresh;
    // No `for`: the turns are as many as it takes until the state says that the input has ended.
    while st.goes_on() {
        let (next, then) = count_some(input, st, tally);
        tally = then;
        st = st.stands_at(next, 0).refill(rt, input);
    }
    tally = count_last(input, st, tally);
    tell(out, st, tally.count()).empty(rt, out)
}

fn main(rt: HostRuntime) {
    let mut input = [0u8; 65536];
    let mut out = [0u8; 64];
    run(&rt, &mut input, &mut out).complain(&rt);
}
