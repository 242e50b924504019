// Reads a word of a console line: a kind of number, a number of at most 255.
//
// Rests on errno, number and rules.
#![tactic(auto)]

ghost use Rattle.std.specs.Prelude.{◌≡◌};
ghost use Rattle.errno.specs.Outcome.{outcome};
ghost use Rattle.wordtext.specs.Words.{kind_text, byte_text};

use errno::Errno;
use rules::Kind;

#[tactic(auto, using(crate::proofs::Laws::same_tells, crate::proofs::Laws::same_spelled), unfolding(errno::specs::Ascii::ascii, errno::specs::Outcome::outcome, crate::specs::Words::kind_text))]
pub fn kind(y: &[u8]) -> Result<Kind, Errno>
    ensures { outcome result ≡ kind_text y.now }
{
    match y {
        b"adapter" => Ok(Kind::Adapter),
        b"domain" => Ok(Kind::Domain),
        b"control" => Ok(Kind::Control),
        _ => Err(Errno::Einval),
    }
}

// A number of at most 255.
pub fn byte(x: &[u8]) -> Result<u8, Errno>
    ensures { outcome result ≡ byte_text x.now }
{
    let n = number::parse(x)?;
    u8::try_from(n).or(Err(Errno::Einval))
}
