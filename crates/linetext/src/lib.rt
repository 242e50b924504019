// Reads a line of the console: a command, a move, a sweep, or bad text.
//
// Rests on mask, errno, digits, number, masktext, rules, model, encoding, split, linereader, hexbytes, configtext, wordtext and
// linewords.
#![tactic(auto)]

ghost use Rattle.std.specs.Prelude.{◌≡◌};
ghost use Rattle.linewords.specs.Asked.{asked};
ghost use Rattle.linetext.specs.Lines.{piece_request, line_request};
ghost use Rattle.linetext.specs.Texts.{OnlyGood};

use errno::Errno;
use linereader::LineReader;
use linewords::Request;

// The most bytes of a line.
pub const LINE_BYTES: usize = 1024;

// A line without its newline. What is read as a command has good text, which no record can refuse.
pub fn read_line<'a>(line: &'a [u8]) -> Result<Request<'a>, Errno>
    ensures result_value { asked result ≡ line_request line.now }
    ensures only_good { OnlyGood (line_request line.now) }
{
    if split::holds(line, b'\n') {
        return Err(Errno::Einval);
    }
    read(line)
}

// A piece of an input between newlines.
#[tactic(auto, using(linereader::proofs::Laws::from_start, linereader::proofs::Laws::from_tells, crate::proofs::Laws::counted), unfolding(linewords::specs::Asked::asked))]
pub fn read<'a>(line: &'a [u8]) -> Result<Request<'a>, Errno>
    ensures { asked result ≡ piece_request line.now }
{
    if LINE_BYTES < line.len() {
        return Err(Errno::Einval);
    }
    let mut words = LineReader::new(line, 0);
    let w = words.next().ok_or(Errno::Einval)?;
    let rest = words.rest();
    match (words.next(), words.next(), words.next(), words.next()) {
        (None, ..) => linewords::one(w),
        (Some(x), None, ..) => linewords::two(w, x),
        (Some(x), Some(y), None, _) => linewords::three(w, x, y),
        (Some(x), Some(y), Some(z), None) => linewords::four(w, x, y, z),
        (Some(_), Some(_), Some(_), Some(_)) => linewords::many(w, rest),
    }
}
