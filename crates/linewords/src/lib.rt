// The words of a console line, by how many there are: a command, a move, a sweep, or bad text.
//
// Rests on mask, errno, number, masktext, rules, model, encoding, split, hexbytes, configtext and wordtext.
#![tactic(auto, using(wordtext::proofs::Laws::same_tells, wordtext::proofs::Laws::same_spelled, crate::proofs::Laws::asked_refused), unfolding(errno::specs::Ascii::ascii, errno::specs::Outcome::outcome, masktext::specs::Text::outcome, configtext::specs::ConfigText::when_good, encoding::specs::Meant::meant, crate::specs::Requests::by_words, crate::specs::Asked::asked))]

ghost use Rattle.std.specs.Prelude.{◌≡◌, [], ◌∷◌, MatchResult};
ghost use Rattle.mask.specs.Bits.{no_bits};
ghost use Rattle.masktext.specs.Text as Text;
ghost use Rattle.masktext.specs.Text.{mask_text};
ghost use Rattle.linewords.specs.Requests.{by_words, by_many};
ghost use Rattle.linewords.specs.Asked.{asked, Numbered, NotNumbered};

use encoding::Command;
use errno::Errno;
use mask::{Apqn, Mask};
use rules::{Id, Kind};

// What a line asks for, with its text lent. A configuration is lent as the text of its four words, which is good.
#[derive(Clone, Copy)]
pub enum Request<'a> {
    Command(Command<'a>),
    Config(&'a [u8]),
    Move(Apqn),
    Sweep,
}

pub fn one(w: &[u8]) -> Result<Request<'static>, Errno>
    ensures { asked result ≡ by_words (w.now ∷ []) }
{
    match w {
        b"sweep" => Ok(Request::Sweep),
        _ => Err(Errno::Einval),
    }
}

pub fn two<'a>(w: &[u8], x: &'a [u8]) -> Result<Request<'a>, Errno>
    ensures { asked result ≡ by_words (w.now ∷ x.now ∷ []) }
{
    match w {
        b"create" => Ok(Request::Command(Command::Create(hexbytes::id(x)?))),
        b"remove" => Ok(Request::Command(Command::Remove(hexbytes::id(x)?))),
        b"open" => Ok(Request::Command(Command::Open(hexbytes::id(x)?))),
        b"close" => Ok(Request::Command(Command::Close(hexbytes::id(x)?))),
        b"apmask" => {
            mask(x)?;
            Ok(Request::Command(Command::SetApmask(x)))
        }
        b"aqmask" => {
            mask(x)?;
            Ok(Request::Command(Command::SetAqmask(x)))
        }
        _ => Err(Errno::Einval),
    }
}

pub fn three(w: &[u8], x: &[u8], y: &[u8]) -> Result<Request<'static>, Errno>
    ensures { asked result ≡ by_words (w.now ∷ x.now ∷ y.now ∷ []) }
{
    match w {
        b"move" => {
            let adapter = wordtext::byte(x)?;
            let domain = wordtext::byte(y)?;
            Ok(Request::Move(Apqn::new(adapter, domain)))
        }
        _ => Err(Errno::Einval),
    }
}

pub fn four<'a>(w: &[u8], x: &[u8], y: &[u8], z: &'a [u8]) -> Result<Request<'a>, Errno>
    ensures { asked result ≡ by_words (w.now ∷ x.now ∷ y.now ∷ z.now ∷ []) }
{
    match w {
        b"assign" => {
            let (kind, id) = numbered(x, y, z)?;
            Ok(Request::Command(Command::Assign(kind, id, z)))
        }
        b"unassign" => {
            let (kind, id) = numbered(x, y, z)?;
            Ok(Request::Command(Command::Unassign(kind, id, z)))
        }
        _ => Err(Errno::Einval),
    }
}

// Five words or more: the first, and all that follows.
pub fn many<'a>(w: &[u8], rest: &'a [u8]) -> Result<Request<'a>, Errno>
    ensures { asked result ≡ by_many w.now rest.now }
{
    match w {
        b"config" => {
            configtext::read(rest)?;
            Ok(Request::Config(rest))
        }
        _ => Err(Errno::Einval),
    }
}

// The kind and the id before a number, where all three are good.
fn numbered(x: &[u8], y: &[u8], z: &[u8]) -> Result<(Kind, Id), Errno>
    ensures { MatchResult result (λ p. Numbered x.now y.now z.now p.0 p.1) (λ e. NotNumbered x.now y.now z.now e) }
{
    let id = hexbytes::id(x)?;
    let kind = wordtext::kind(y)?;
    number::parse(z)?;
    Ok((kind, id))
}

// The mask of a text, on an empty one.
fn mask(x: &[u8]) -> Result<Mask, Errno>
    ensures { Text.outcome result ≡ mask_text x.now no_bits }
{
    masktext::parse(x, Mask::empty())
}
