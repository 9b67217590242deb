// The buffer, the description of the frame and the lent length: the lines that change them, and those that show them.
#![tactic(auto)]

ghost use Rattle.std.specs.Prelude.{◌≡◌, ◌≤◌, length};
ghost use Rattle.screens.specs.Screen.{start, last_screen, frame_turn, preset_call, read_reply, image_size_reply, lit_reply, response};

use calls::draw;
use frames::Frame;
use protocol::Reply;
use readers::{is_word, last_u32, line_end, next_point};

// The description, and how many bytes of the buffer are lent to drawing calls.
#[derive(Clone, Copy)]
pub struct Screen {
    pub frame: Frame,
    pub lent: usize,
}

// Before any line: nothing is described and nothing lent.
pub fn first_screen() -> Screen
    ensures { result ≡ start }
{
    Screen {
        frame: Frame::packed(0, 0, 1, false),
        lent: 0,
    }
}

// What a line leaves of the screen, and what it is answered; none, if it is no request.
#[derive(Clone, Copy)]
pub struct Turn {
    pub screen: Screen,
    pub reply: Option<Reply>,
}

// The description at `at`, which has to be the rest of the line.
fn last_screen(said: &[u8], at: usize) -> Option<Screen>
    ensures { result ≡ last_screen said.now at }
{
    let (width, at) = text::next_u32(said, at)?;
    let (height, at) = text::next_u32(said, at)?;
    let (depth, at) = text::next_u32(said, at)?;
    let (order, at) = text::next_u32(said, at)?;
    let (lent, at) = text::next_u32(said, at)?;
    let (distance, at) = text::next_u32(said, at)?;
    line_end(said, at)?;
    if order > 1 || lent > 65536 {
        return None;
    }
    let frame = Frame::new(width, height, depth, order == 1, distance);
    Some(Screen {
        frame,
        lent: lent as usize,
    })
}

fn frame(said: &[u8], at: usize, memory: &mut [u8], screen: Screen) -> Turn
    ensures { (result, memory.new) ≡ frame_turn said.now at screen memory.old }
{
    let Some(after) = last_screen(said, at) else {
        return Turn {
            screen,
            reply: None,
        };
    };
    packing::set_all(memory, 0);
    let reply = Some(framebuffer::buffer_size_bpp(after.frame).into());
    Turn {
        screen: after,
        reply,
    }
}

// Inside the library: every byte of a buffer set to the value.
pub fn preset(said: &[u8], at: usize, memory: &mut [u8]) -> Option<Reply>
    ensures { (result, memory.new) ≡ preset_call said.now at memory.old }
{
    let v = last_u32(said, at, 255)?;
    packing::set_all(memory, v as u8);
    Some(Reply::Number(0))
}

fn read(said: &[u8], at: usize, buf: &[u8], frame: Frame) -> Option<Reply>
    ensures { result ≡ read_reply said.now at frame buf.now }
{
    let (p, at) = next_point(said, at)?;
    line_end(said, at)?;
    Some(framebuffer::pixel(buf, frame, p).into())
}

fn image_size(said: &[u8], at: usize, frame: Frame) -> Option<Reply>
    ensures { result ≡ image_size_reply said.now at frame }
{
    line_end(said, at)?;
    Some(netpbm::image_size(frame).into())
}

fn lit(said: &[u8], at: usize, buf: &[u8], frame: Frame) -> Option<Reply>
    ensures { result ≡ lit_reply said.now at frame buf.now }
{
    line_end(said, at)?;
    Some(lights::lit(buf, frame).into())
}

// Inside the library: does what the line says that starts with the word, all but those on the file and those that show bytes. Calls are made on the lent part of
// the buffer.
pub fn respond(word: &[u8], said: &[u8], at: usize, memory: &mut [u8], screen: Screen) -> Turn
    requires { screen.lent ≤ length memory.old }
    ensures { (result, memory.new) ≡ response word.now said.now at screen memory.old }
{
    let lent = screen.lent;
    match word {
        w if is_word(w, b"frame") => frame(said, at, memory, screen),
        w if is_word(w, b"preset") => {
            let reply = preset(said, at, memory);
            Turn { screen, reply }
        }
        w if is_word(w, b"read") => {
            let reply = read(said, at, &memory[..lent], screen.frame);
            Turn { screen, reply }
        }
        w if is_word(w, b"imagesize") => {
            let reply = image_size(said, at, screen.frame);
            Turn { screen, reply }
        }
        w if is_word(w, b"lit") => {
            let reply = lit(said, at, &memory[..lent], screen.frame);
            Turn { screen, reply }
        }
        _ => {
            let reply = draw(word, said, at, &mut memory[..lent], screen.frame);
            Turn { screen, reply }
        }
    }
}
