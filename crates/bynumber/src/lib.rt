// Assigning and unassigning by number, on a whole record and with an id as bytes: what a caller in C asks for.
//
// Rests on rules, fields, layout, assignnumber and served.
#![tactic(auto)]

ghost use Rattle.served.specs.Served.{id_in, NumberAssigns, NumberUnassigns};

use fields::ID_BYTES;
use layout::{Drivers, Words};
use rules::Kind;

pub fn assign(
    words: &mut Words,
    drivers: &mut Drivers,
    kind: Kind,
    id: &[u8; ID_BYTES],
    number: u64,
) -> u8
    ensures { NumberAssigns kind (id_in id.entry) number words drivers result }
{
    rules::answer_number(assignnumber::assign(words, kind, fields::id_of(id), number))
}

pub fn unassign(
    words: &mut Words,
    drivers: &mut Drivers,
    kind: Kind,
    id: &[u8; ID_BYTES],
    number: u64,
) -> u8
    ensures { NumberUnassigns kind (id_in id.entry) number words drivers result }
{
    rules::answer_number(assignnumber::unassign(words, kind, fields::id_of(id), number))
}
