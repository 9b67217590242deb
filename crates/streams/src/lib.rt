// Programs that answer their input line by line, of whatever length it is and in whatever parts it comes. A program goes on turn by turn: it answers
// the lines that LF ends, writes, and reads on; and at the end the last line. What is decided in between stands here; the calls of `read` and `write` are
// those of `console`.
#![tactic(auto)]

ghost use Rattle.std.specs.Prelude.{◌≡◌, ◌≤◌, ◌<◌, length};
ghost use Rattle.streams.specs.State.{Within, started, goes_on, stands_at, written, emptied, last_is};
ghost use Rattle.streams.specs.Refill.{whole, Refilled};

// What is to be hoped of the input after the last read: more may come, or it has ended, or it could not be read.
#[derive(Clone, Copy)]
pub enum Input {
    More,
    End,
    Unread,
}

// The bytes of the input's buffer from `next` up to `end` are still to be looked at, and the output's is filled up to `at`; what is to be hoped of the input,
// and whether the last write failed. That stays a `bool` beside `input`: after such a write a program reads once more, and says so if that fails too. A proved
// loop has to end, and nothing says that an input does: so the turns are counted down, from a number that no run uses up.
#[derive(Clone, Copy)]
pub struct State {
    pub next: usize,
    pub end: usize,
    pub at: usize,
    pub input: Input,
    pub unwritten: bool,
    pub turns: u64,
}

impl State {
    // Inside the library: where a program stands before it has read a byte.
    pub fn start() -> State
        ensures { result ≡ started }
    {
        State {
            next: 0,
            end: 0,
            at: 0,
            input: Input::More,
            unwritten: false,
            turns: u64::MAX,
        }
    }

    // Inside the library: whether there is a turn to come.
    pub fn goes_on(self) -> bool
        ensures { result ≡ goes_on self }
    {
        matches!(self.input, Input::More) && !self.unwritten && self.turns > 0
    }

    // Inside the library: after lines were answered up to `next`, which filled the output up to `at`.
    pub fn stands_at(self, next: usize, at: usize) -> State
        ensures { result ≡ stands_at self next at }
    {
        State { next, at, ..self }
    }

    // Inside the library: writes the output once half of 64 KiB is filled.
    pub fn flush(self, rt: &HostRuntime, out: &[u8]) -> State
        requires { self.at ≤ length out.now }
        ensures { result ≡ written self result.unwritten }
    {
        if self.at < 32768 {
            self
        } else {
            self.empty(rt, out)
        }
    }

    // Inside the library: writes all that the output is filled with.
    pub fn empty(self, rt: &HostRuntime, out: &[u8]) -> State
        requires { self.at ≤ length out.now }
        ensures { result ≡ emptied self result.unwritten }
    {
        let taken = console::write(rt, out, self.at);
        State {
            at: 0,
            unwritten: taken.is_err(),
            ..self
        }
    }

    // Inside the library: whether a line that LF ends is left.
    pub fn has_line(self, input: &[u8]) -> bool
        requires { Within self × (length input.now ≡ 65536) }
        ensures { result ≡ whole input.now self }
    {
        let end = self.end;
        text::part_end(&input[..end], self.next, b'\n') < end
    }

    // Inside the library: once no line is left that LF ends, keeps what is behind the last of them, of which 129 bytes are enough, and reads on behind it.
    pub fn refill(self, rt: &HostRuntime, input: &mut [u8]) -> State
        requires { Within self × (0 < self.turns) × (length input.old ≡ 65536) }
        ensures { Refilled input.old self result input.new }
    {
        let turns = self.turns - 1;
        if self.has_line(input) {
            return State { turns, ..self };
        }
        let kept = text::keep(input, self.next, self.end, 129);
        let (count, left) = match console::read_more(&mut rt.stdin(), input, kept) {
            Ok(count) if count > 0 => (count, Input::More),
            Ok(count) => (count, Input::End),
            Err(_) => (0, Input::Unread),
        };
        State {
            next: 0,
            end: kept + count,
            input: left,
            turns,
            ..self
        }
    }

    // Inside the library: whether what is left is a last line, which lacks its LF.
    pub fn has_last(self) -> bool
        ensures { result ≡ last_is self }
    {
        matches!(self.input, Input::End) && self.next < self.end
    }

    // Inside the library: says on standard error if a read failed.
    pub fn complain(self, rt: &HostRuntime) {
        if let Input::Unread = self.input {
            console::complain(rt, b"the standard input could not be read\n");
        }
    }
}
