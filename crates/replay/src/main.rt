// Puts any question or call to the library: reads lines of a word and tab-parted numbers and answers each by a line. A line ends at LF or at
// the end of the input, of whatever length that is and in whatever parts it comes.
#![tactic(auto)]

ghost use Rattle.std.specs.Prelude.{◌≡◌, ◌≤◌, length};
ghost use Rattle.streams.specs.State.{Standing};
ghost use Rattle.streams.specs.Run.{Ended};
ghost use Rattle.replay.specs.Session.{bytes, Sound, first, after_lines, after_last};

use screens::Screen;
use streams::State;

// Where the program stands, and the screen that the lines left.
#[derive(Clone, Copy)]
pub struct Reached {
    pub st: State,
    pub screen: Screen,
}

// Answers the lines that are there and that LF ends, as far as the output has room.
fn answer_some(
    input: &[u8],
    memory: &mut [u8],
    file: &mut [u8],
    out: &mut [u8],
    st: State,
    screen: Screen,
) -> Reached
    requires { Standing st input.now out.old × Sound (out.old, (screen, (memory.old, file.old))) }
    ensures { ((result.st, (out.new, (result.screen, (memory.new, file.new))))
        ≡ after_lines input.now st (out.old, (screen, (memory.old, file.old)))) × (result.st.at ≤ 65536) }
{
    let end = st.end;
    let done = session::answer_lines(&input[..end], st.next, memory, file, screen, out, st.at);
    let left = done.screen;
    Reached {
        st: st.stands_at(done.next, done.at),
        screen: left,
    }
}

// Answers a last line that lacks its LF.
fn last_line(
    input: &[u8],
    memory: &mut [u8],
    file: &mut [u8],
    out: &mut [u8],
    st: State,
    screen: Screen,
) -> Reached
    requires { Standing st input.now out.old × Sound (out.old, (screen, (memory.old, file.old))) }
    ensures { ((result.st, (out.new, (result.screen, (memory.new, file.new))))
        ≡ after_last input.now st (out.old, (screen, (memory.old, file.old)))) × (result.st.at ≤ 65536) }
{
    if !st.has_last() {
        return Reached { st, screen };
    }
    let next = st.next;
    let end = st.end;
    let last = session::answer_line(&input[next..end], memory, file, screen, out, st.at);
    let left = last.screen;
    Reached {
        st: st.stands_at(end, last.at),
        screen: left,
    }
}

// Turn after turn, until the input ends.
fn run(
    rt: &HostRuntime,
    input: &mut [u8],
    memory: &mut [u8],
    file: &mut [u8],
    out: &mut [u8],
) -> State
    requires { (length input.old ≡ 65536) × (length memory.old ≡ 65536) × (length file.old ≡ 65536) × (length out.old ≡ 65536) }
    ensures { Ended bytes after_lines after_last (first out.old (memory.old, file.old)) result input.new out.new }
{
    let mut st = State::start();
    let mut screen = screens::first_screen();
    // No `for`: the turns are as many as it takes until the state says that the input has ended.
    while st.goes_on() {
        let reached = answer_some(input, memory, file, out, st, screen);
        screen = reached.screen;
        st = reached.st.flush(rt, out).refill(rt, input);
    }
    let reached = last_line(input, memory, file, out, st, screen);
    reached.st.empty(rt, out)
}

fn main(rt: HostRuntime) {
    let mut input = [0u8; 65536];
    let mut memory = [0u8; 65536];
    let mut file = [0u8; 65536];
    let mut out = [0u8; 65536];
    run(&rt, &mut input, &mut memory, &mut file, &mut out).complain(&rt);
}
