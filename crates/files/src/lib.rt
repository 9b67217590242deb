// The file buffer: the frame written into it as an image file and read from it, and setting its bytes, all or some; any other line is the screen's.
#![tactic(auto)]

ghost use Rattle.std.specs.Prelude.{◌≡◌, ◌≤◌, length};
ghost use Rattle.files.specs.Files.{image_call, bytes_call, load_call, act};

use frames::Frame;
use protocol::{Reply, put_hex};
use readers::{is_word, last_u32};
use screens::{Screen, Turn, preset, respond};

fn image(said: &[u8], at: usize, buf: &[u8], frame: Frame, file: &mut [u8]) -> Option<Reply>
    requires { length file.old ≡ 65536 }
    ensures { (result, file.new) ≡ image_call said.now at frame buf.now file.old }
{
    let room = last_u32(said, at, 65536)?;
    let end = room as usize;
    Some(netpbm::write_image(buf, frame, &mut file[..end]).into())
}

fn bytes(said: &[u8], at: usize, file: &mut [u8]) -> Option<Reply>
    ensures { (result, file.new) ≡ bytes_call said.now at file.old }
{
    let (from, at) = text::next_u32(said, at)?;
    let digits = said.get(at..)?;
    put_hex(digits, from as usize, file).then_some(Reply::Number(0))
}

fn load(said: &[u8], at: usize, buf: &mut [u8], frame: Frame, file: &[u8]) -> Option<Reply>
    requires { length file.now ≡ 65536 }
    ensures { (result, buf.new) ≡ load_call said.now at frame file.now buf.old }
{
    let length = last_u32(said, at, 65536)?;
    let end = length as usize;
    Some(netpbm::read_image(buf, frame, &file[..end]).into())
}

// Inside the library: does what the line says that starts with the word, all but those that show bytes.
pub fn take_turn(
    word: &[u8],
    said: &[u8],
    at: usize,
    memory: &mut [u8],
    file: &mut [u8],
    screen: Screen,
) -> Turn
    requires { (screen.lent ≤ length memory.old) × (length file.old ≡ 65536) }
    ensures { (result, (memory.new, file.new)) ≡ act word.now said.now at screen (memory.old, file.old) }
{
    let lent = screen.lent;
    match word {
        w if is_word(w, b"image") => {
            let reply = image(said, at, &memory[..lent], screen.frame, file);
            Turn { screen, reply }
        }
        w if is_word(w, b"wipe") => {
            let reply = preset(said, at, file);
            Turn { screen, reply }
        }
        w if is_word(w, b"bytes") => {
            let reply = bytes(said, at, file);
            Turn { screen, reply }
        }
        w if is_word(w, b"load") => {
            let reply = load(said, at, &mut memory[..lent], screen.frame, file);
            Turn { screen, reply }
        }
        _ => respond(word, said, at, memory, screen),
    }
}
