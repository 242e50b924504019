// What a move did, as a word.
//
// Rests on errno, names and rules.
#![tactic(auto)]

ghost use Rattle.std.specs.Prelude.{◌≡◌};
ghost use Rattle.movednames.specs.Moves.{moved_word, CaseOf, MovedShown};

use errno::NAME_BYTES;
use rules::Moved;

// The word for the number of a move's answer, padded with zeros, and its length; of any other number nothing, and 0.
pub fn moved_name(value: u64, out: &mut [u8; NAME_BYTES]) -> usize
    ensures { MovedShown value out.entry out.exit result }
{
    match moved_of(value) {
        Some(moved) => names::write(word(moved), out),
        None => 0,
    }
}

// What a move did, in ASCII.
#[tactic(auto, unfolding(crate::specs::Moves::moved_word, errno::specs::Ascii::ascii))]
pub fn word(moved: Moved) -> &'static [u8]
    ensures { result.now ≡ moved_word moved }
{
    match moved {
        Moved::Idle => b"idle",
        Moved::Released => b"released",
        Moved::BoundHost => b"host",
        Moved::BoundPassthrough => b"passthrough",
    }
}

// The case with a number.
fn moved_of(value: u64) -> Option<Moved>
    ensures { CaseOf value result }
{
    match value {
        0 => Some(Moved::Idle),
        1 => Some(Moved::Released),
        2 => Some(Moved::BoundHost),
        3 => Some(Moved::BoundPassthrough),
        _ => None,
    }
}
