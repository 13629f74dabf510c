// Reads a replay from standard input, and writes what it prints to standard output.
#![tactic(auto)]

ghost use Rattle.std.specs.Prelude.{◌≡◌, ◌≤◌, OnOk, length, take};
ghost use Rattle.std.specs.Io.KnownBytes.{Appends};
ghost use Rattle.io.specs.Counts.{IsPrefixLen};
ghost use Rattle.replay.specs.Replay.{transcript};
ghost use Rattle.replay.specs.Length.{longest};

use replay::replay;
use std::io;
use std::io::Write;

// No replay prints more.
const LONGEST: usize = 131072;

fn room() -> [u8; LONGEST]
    ensures { longest ≡ length result }
{
    [0; LONGEST]
}

// All that a replay prints, at the start of the room; answers how many bytes that is.
fn whole(src: &[u8], out: &mut [u8]) -> usize
    requires { longest ≤ length out.old }
    ensures prefix_len { IsPrefixLen result out.new }
    ensures out_after { take result out.new ≡ transcript src.now }
{
    replay(src, out)
}

// A write that fails is told on standard error.
fn answer<W: Write, E: Write>(
    to: &mut W,
    errors: &mut E,
    src: &[u8],
    out: &mut [u8],
) -> io::Result<()>
    requires { longest ≤ length out.old }
    ensures { OnOk result (Appends (W.contents to.old) (W.contents to.new) (transcript src.now)) }
{
    let said = whole(src, out);
    let written = to.write_all(&out[..said]);
    if written.is_err() {
        let _ = errors.write_all(b"replay: the output could not be written\n");
    }
    written
}

// A write that failed was told by then, and there is no more to say. A read that fails counts as the end of the text.
fn main(rt: HostRuntime) {
    let mut src = console::large_buffer();
    let mut out = room();
    let (got, _) = console::read_full(&mut rt.stdin(), &mut src);
    let _ = answer(&mut rt.stdout(), &mut rt.stderr(), &src[..got], &mut out);
}
