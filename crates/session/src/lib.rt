// Answering a line, and the lines of a part of the input one after the other: a line shows bytes, or takes a turn.
#![tactic(auto)]

ghost use Rattle.std.specs.Prelude.{◌≡◌, ◌+◌, ◌≤◌, length};
ghost use Rattle.session.specs.Lines.{answered, after_all};

use files::take_turn;
use protocol::{dump, write_bad, write_reply};
use readers::is_word;
use screens::Screen;

// What a line leaves: the screen, and how far the output is filled.
#[derive(Clone, Copy)]
pub struct Answered {
    pub screen: Screen,
    pub at: usize,
}

// What lines leave: the same, and how far the input is read.
#[derive(Clone, Copy)]
pub struct Progress {
    pub next: usize,
    pub screen: Screen,
    pub at: usize,
}

// Inside the library: answers a line, in at most 8,193 bytes.
pub fn answer_line(
    said: &[u8],
    memory: &mut [u8],
    file: &mut [u8],
    screen: Screen,
    out: &mut [u8],
    at: usize,
) -> Answered
    requires { (screen.lent ≤ length memory.old) × (length file.old ≡ 65536) × (at + 8193 ≤ length out.old) }
    ensures { (((result.at, out.new), (result.screen, (memory.new, file.new)))
        ≡ answered ((at, out.old), (screen, (memory.old, file.old))) said.now) × (result.at ≤ at + 8193) }
{
    if said.len() > 128 {
        let filled = write_bad(out, at);
        return Answered { screen, at: filled };
    }
    let end = text::find(said, b'\t');
    let word = &said[..end];
    match word {
        w if is_word(w, b"dump") => {
            let filled = dump(said, end + 1, memory, out, at);
            Answered { screen, at: filled }
        }
        w if is_word(w, b"file") => {
            let filled = dump(said, end + 1, file, out, at);
            Answered { screen, at: filled }
        }
        _ => {
            let turn = take_turn(word, said, end + 1, memory, file, screen);
            let filled = write_reply(out, at, turn.reply);
            Answered {
                screen: turn.screen,
                at: filled,
            }
        }
    }
}

// Inside the library: answers the lines of `input` that an LF ends, from `from` on, as long as there is room for the longest answer; `out` is filled up to `at`.
pub fn answer_lines(
    input: &[u8],
    from: usize,
    memory: &mut [u8],
    file: &mut [u8],
    screen: Screen,
    out: &mut [u8],
    at: usize,
) -> Progress
    requires { (from ≤ length input.now) × (screen.lent ≤ 65536) × (length memory.old ≡ 65536) × (length file.old ≡ 65536) × (at ≤ length out.old) }
    ensures { ((result.next, ((result.at, out.new), (result.screen, (memory.new, file.new))))
        ≡ after_all input.now from ((at, out.old), (screen, (memory.old, file.old)))) × (result.at ≤ length out.old) }
{
    let mut next = from;
    let mut filled = at;
    let mut current = screen;
    // No `for` over `split_inclusive`: its last line may lack an LF, and how far the input is read would be counted by hand all the same.
    loop {
        let end = text::part_end(input, next, b'\n');
        if end == input.len() || !text::has_room(out.len(), filled, 8193) {
            return Progress {
                next,
                screen: current,
                at: filled,
            };
        }
        let done = answer_line(&input[next..end], memory, file, current, out, filled);
        filled = done.at;
        current = done.screen;
        next = end + 1;
    }
}
