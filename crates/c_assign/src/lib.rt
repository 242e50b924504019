// The C interface: assigning and unassigning by the text of a number. include/zokormendu.h has the declarations.
//
// Rests on rules, fields, layout, served and bytext.
#![tactic(auto)]

ghost use Rattle.rules.specs.declared.Kind.TheVariants.{Adapter, Domain, Control};
ghost use Rattle.served.specs.Served.{id_in, AssignServes, UnassignServes};

use fields::ID_BYTES;
use layout::{Drivers, Words};
use rules::Kind;

#[unsafe(no_mangle)]
pub extern "C" fn zk_raw_assign_adapter(
    words: &mut Words,
    drivers: &mut Drivers,
    id: &[u8; ID_BYTES],
    text: &[u8],
) -> u8
    ensures { AssignServes Adapter (id_in id.entry) text.entry words drivers result }
{
    bytext::assign(words, drivers, Kind::Adapter, id, text)
}

#[unsafe(no_mangle)]
pub extern "C" fn zk_raw_assign_domain(
    words: &mut Words,
    drivers: &mut Drivers,
    id: &[u8; ID_BYTES],
    text: &[u8],
) -> u8
    ensures { AssignServes Domain (id_in id.entry) text.entry words drivers result }
{
    bytext::assign(words, drivers, Kind::Domain, id, text)
}

#[unsafe(no_mangle)]
pub extern "C" fn zk_raw_assign_control_domain(
    words: &mut Words,
    drivers: &mut Drivers,
    id: &[u8; ID_BYTES],
    text: &[u8],
) -> u8
    ensures { AssignServes Control (id_in id.entry) text.entry words drivers result }
{
    bytext::assign(words, drivers, Kind::Control, id, text)
}

#[unsafe(no_mangle)]
pub extern "C" fn zk_raw_unassign_adapter(
    words: &mut Words,
    drivers: &mut Drivers,
    id: &[u8; ID_BYTES],
    text: &[u8],
) -> u8
    ensures { UnassignServes Adapter (id_in id.entry) text.entry words drivers result }
{
    bytext::unassign(words, drivers, Kind::Adapter, id, text)
}

#[unsafe(no_mangle)]
pub extern "C" fn zk_raw_unassign_domain(
    words: &mut Words,
    drivers: &mut Drivers,
    id: &[u8; ID_BYTES],
    text: &[u8],
) -> u8
    ensures { UnassignServes Domain (id_in id.entry) text.entry words drivers result }
{
    bytext::unassign(words, drivers, Kind::Domain, id, text)
}

#[unsafe(no_mangle)]
pub extern "C" fn zk_raw_unassign_control_domain(
    words: &mut Words,
    drivers: &mut Drivers,
    id: &[u8; ID_BYTES],
    text: &[u8],
) -> u8
    ensures { UnassignServes Control (id_in id.entry) text.entry words drivers result }
{
    bytext::unassign(words, drivers, Kind::Control, id, text)
}
