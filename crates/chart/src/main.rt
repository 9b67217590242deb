// Draws the day that `minutes` counts, as an image file (P6) on standard output. The input is what `minutes` reads, at most 1,048,576 bytes of it. What is drawn is
// the definition `day` of the crate `charts`. Of an input that `minutes` does not count its line is written to standard error, and nothing to standard output.
#![tactic(auto)]

ghost use Rattle.std.specs.Prelude.{◌≡◌, ◌≤◌, length, replicate, IfOk};
ghost use Rattle.chart.specs.Told.{Handed};

use frames::Size;
use std::io;

#[derive(Clone, Copy)]
pub enum Told {
    Image(usize),
    Line(usize),
}

// Reads until the input ends or there is no more room for it, and answers how many bytes there are.
fn read_all(rt: &HostRuntime, input: &mut [u8]) -> io::Result<usize>
    ensures { IfOk result (λ end. end ≤ length input.old) }
{
    let mut end = 0;
    // No `for`: how many reads it takes is not known before; each says how far the input is filled.
    while end < input.len() {
        let came = console::read_more(&mut rt.stdin(), input, end)?;
        if came == 0 {
            break;
        }
        end += came;
    }
    Ok(end)
}

// Puts what is to be said of an input into the output.
fn tell(input: &[u8], pane: &mut [u8], out: &mut [u8]) -> Told
    requires { (pane.old ≡ replicate 691200 0) × (length out.old ≡ 691215) }
    ensures { Handed input.now result out.new }
{
    let count = charts::draw_day(pane, input);
    if count.is_ok() {
        let image = Size::from(netpbm::write_image(pane, charts::frame(), out));
        Told::Image(image.bytes as usize)
    } else {
        Told::Line(reports::write_count(out, 0, count))
    }
}

// Says it of the input.
fn say(rt: &HostRuntime, input: &[u8], out: &[u8], t: Told)
    requires { Handed input.now t out.now }
{
    match t {
        Told::Image(end) => {
            // A write that failed is said already.
            let _ = console::write(rt, out, end);
        }
        Told::Line(end) => console::complain(rt, &out[..end]),
    }
}

fn run(rt: &HostRuntime, input: &mut [u8], pane: &mut [u8], out: &mut [u8])
    requires { (pane.old ≡ replicate 691200 0) × (length out.old ≡ 691215) }
{
    let Ok(end) = read_all(rt, input) else {
        console::complain(rt, b"the standard input could not be read\n");
        return;
    };
    if end > 1048576 {
        console::complain(rt, b"too long\n");
        return;
    }
    let t = tell(&input[..end], pane, out);
    say(rt, &input[..end], out, t);
}

fn main(rt: HostRuntime) {
    let mut input = [0u8; 1048577];
    let mut pane = [0u8; 691200];
    let mut out = [0u8; 691215];
    run(&rt, &mut input, &mut pane, &mut out);
}
