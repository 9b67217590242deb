// Standard input, output and error, for every program: what is read goes behind what was kept. No contract can say which bytes come from outside or arrive
// there, so these say how many there is room for, what stays, and that a reader's bytes are told as what they are: read, or lost to a failure.
#![tactic(auto)]

ghost use Rattle.std.specs.Prelude.{◌≡◌, ◌+◌, ◌≤◌, length, take, drop, IfOk};
ghost use Rattle.std.specs.Io.KnownBytes.{ReadConsumes};

use std::io;
use std::io::Read;

// Inside the library: reads once behind the bytes that are kept, which stay, and answers how many bytes came. None are the end of the input.
pub fn read_more<R: Read>(from: &mut R, input: &mut [u8], kept: usize) -> io::Result<usize>
    requires { kept ≤ length input.old }
    ensures kept { take kept input.new ≡ take kept input.old }
    ensures room { IfOk result (λ count. kept + count ≤ length input.old) }
    ensures bytes { ReadConsumes (R.remaining from.old) (R.remaining from.new) result (drop kept input.new) }
{
    from.read(&mut input[kept..])
}

// Inside the library: writes the first `at` bytes of an output, and says so on standard error if they were not taken.
pub fn write(rt: &HostRuntime, out: &[u8], at: usize) -> io::Result<()>
    requires { at ≤ length out.now }
{
    let taken = rt.stdout().write_all(&out[..at]);
    if taken.is_err() {
        complain(rt, b"the standard output could not be written\n");
    }
    taken
}

// Inside the library: writes a line to standard error.
pub fn complain(rt: &HostRuntime, line: &[u8]) {
    let _ = rt.stderr().write_all(line);
}
