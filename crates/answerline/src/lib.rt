// The answer line to a line of the console.
//
// Rests on errno, copy, decimal, rules and movednames.
#![tactic(auto)]

ghost use Rattle.std.specs.Prelude.{◌≡◌, ◌++◌, ◌+◌, ◌≤◌, ◌<◌, length};
ghost use Rattle.errno.specs.Errno.{number_of};
ghost use Rattle.answerline.specs.Answers.{ended, command_line, move_line, sweep_line, said_line, longest, Puts};
ghost use Rattle.answerline.specs.Written.{Writes};

use errno::Errno;
use rules::Moved;

// What a line is answered.
#[derive(Clone, Copy)]
pub enum Said {
    Done,
    Refused(Errno),
    Did(Moved),
    Used(u32),
}

// The bytes of the longest answer line: refused EADDRNOTAVAIL and its newline.
pub const LONGEST: usize = 22;

// Writes the answer line at an index, and gives the index after it. Where there is no room for the longest, nothing is written.
pub fn put(out: &mut [u8], at: usize, said: Said) -> usize
    ensures { Puts (said_line said) at out.entry out.exit result }
{
    if out.len() < LONGEST || out.len() - LONGEST < at {
        return at;
    }
    let rest = &mut out[at..];
    at + match said {
        Said::Done => last(rest, b"ok"),
        Said::Refused(e) => refused(rest, e),
        Said::Did(m) => did(rest, m),
        Said::Used(n) => used(rest, n),
    }
}

// Writes a refusal and its name.
fn refused(out: &mut [u8], e: Errno) -> usize
    requires { longest ≤ length out.old }
    ensures { Writes (command_line (number_of e)) out.entry out.exit result }
{
    line(out, b"refused ", errno::name(e))
}

// Writes what a move did.
fn did(out: &mut [u8], m: Moved) -> usize
    requires { longest ≤ length out.old }
    ensures { Writes (move_line m) out.entry out.exit result }
{
    line(out, b"ok ", movednames::word(m))
}

// Writes the moves that a sweep used.
fn used(out: &mut [u8], n: u32) -> usize
    requires { longest ≤ length out.old }
    ensures { Writes (sweep_line n) out.entry out.exit result }
{
    let number = decimal::write(n);
    let bytes = number.bytes;
    let from = number.from;
    line(out, b"ok ", &bytes[from..])
}

// Writes a line of two texts.
fn line(out: &mut [u8], first: &[u8], second: &[u8]) -> usize
    requires { length first.now + length second.now < length out.old }
    ensures { Writes (ended (first.now ++ second.now)) out.entry out.exit result }
{
    let n = first.len();
    fill(&mut out[..n], first);
    n + last(&mut out[n..], second)
}

// Writes a text and a newline.
fn last(out: &mut [u8], text: &[u8]) -> usize
    requires { length text.now < length out.old }
    ensures { Writes (ended text.now) out.entry out.exit result }
{
    let n = text.len();
    fill(&mut out[..n], text);
    out[n] = b'\n';
    n + 1
}

// Copies bytes, one for each place, by `copy::copy`: `copy_from_slice` would need memmove here.
fn fill(room: &mut [u8], bytes: &[u8])
    requires { length room.old ≡ length bytes.now }
    ensures { room.new ≡ bytes.now }
{
    copy::copy(room, 0, bytes);
}
