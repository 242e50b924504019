// Assigning and unassigning by the text of a number, on a whole record and with an id as bytes: what a caller in C asks for.
//
// Rests on rules, fields, layout, assign and served.
#![tactic(auto)]

ghost use Rattle.served.specs.Served.{id_in, AssignServes, UnassignServes};

use fields::ID_BYTES;
use layout::{Drivers, Words};
use rules::Kind;

pub fn assign(
    words: &mut Words,
    drivers: &mut Drivers,
    kind: Kind,
    id: &[u8; ID_BYTES],
    text: &[u8],
) -> u8
    ensures { AssignServes kind (id_in id.entry) text.entry words drivers result }
{
    rules::answer_number(assign::assign(words, kind, fields::id_of(id), text))
}

pub fn unassign(
    words: &mut Words,
    drivers: &mut Drivers,
    kind: Kind,
    id: &[u8; ID_BYTES],
    text: &[u8],
) -> u8
    ensures { UnassignServes kind (id_in id.entry) text.entry words drivers result }
{
    rules::answer_number(assign::unassign(words, kind, fields::id_of(id), text))
}
