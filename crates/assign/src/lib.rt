// Assigning adapters, domains and control domains to a device by the text of a number, and taking them away.
//
// Rests on errno, number, numeral, rules, layout, admit and assignnumber.
#![tactic(auto)]

ghost use Rattle.assign.specs.Numbers.{Assigns, Unassigns};

use layout::Words;
use rules::{Answer, Id, Kind};

// Assigns the number that a text says.
pub fn assign(words: &mut Words, kind: Kind, id: Id, text: &[u8]) -> Answer
    ensures { Assigns kind id text.entry words.entry words.exit result }
{
    let n = number::parse(text)?;
    assignnumber::assign(words, kind, id, u64::from(n))
}

// Takes away the number that a text says.
pub fn unassign(words: &mut Words, kind: Kind, id: Id, text: &[u8]) -> Answer
    ensures { Unassigns kind id text.entry words.entry words.exit result }
{
    let n = number::parse(text)?;
    assignnumber::unassign(words, kind, id, u64::from(n))
}
