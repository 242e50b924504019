// The C interface: assigning and unassigning by number. include/zokormendu.h has the declarations.
//
// Rests on rules, fields, layout, served and bynumber.
#![tactic(auto)]

ghost use Rattle.rules.specs.declared.Kind.TheVariants.{Adapter, Domain, Control};
ghost use Rattle.served.specs.Served.{id_in, NumberAssigns, NumberUnassigns};

use fields::ID_BYTES;
use layout::{Drivers, Words};
use rules::Kind;

#[unsafe(no_mangle)]
pub extern "C" fn zk_raw_assign_adapter_number(
    words: &mut Words,
    drivers: &mut Drivers,
    id: &[u8; ID_BYTES],
    number: u64,
) -> u8
    ensures { NumberAssigns Adapter (id_in id.entry) number words drivers result }
{
    bynumber::assign(words, drivers, Kind::Adapter, id, number)
}

#[unsafe(no_mangle)]
pub extern "C" fn zk_raw_assign_domain_number(
    words: &mut Words,
    drivers: &mut Drivers,
    id: &[u8; ID_BYTES],
    number: u64,
) -> u8
    ensures { NumberAssigns Domain (id_in id.entry) number words drivers result }
{
    bynumber::assign(words, drivers, Kind::Domain, id, number)
}

#[unsafe(no_mangle)]
pub extern "C" fn zk_raw_assign_control_domain_number(
    words: &mut Words,
    drivers: &mut Drivers,
    id: &[u8; ID_BYTES],
    number: u64,
) -> u8
    ensures { NumberAssigns Control (id_in id.entry) number words drivers result }
{
    bynumber::assign(words, drivers, Kind::Control, id, number)
}

#[unsafe(no_mangle)]
pub extern "C" fn zk_raw_unassign_adapter_number(
    words: &mut Words,
    drivers: &mut Drivers,
    id: &[u8; ID_BYTES],
    number: u64,
) -> u8
    ensures { NumberUnassigns Adapter (id_in id.entry) number words drivers result }
{
    bynumber::unassign(words, drivers, Kind::Adapter, id, number)
}

#[unsafe(no_mangle)]
pub extern "C" fn zk_raw_unassign_domain_number(
    words: &mut Words,
    drivers: &mut Drivers,
    id: &[u8; ID_BYTES],
    number: u64,
) -> u8
    ensures { NumberUnassigns Domain (id_in id.entry) number words drivers result }
{
    bynumber::unassign(words, drivers, Kind::Domain, id, number)
}

#[unsafe(no_mangle)]
pub extern "C" fn zk_raw_unassign_control_domain_number(
    words: &mut Words,
    drivers: &mut Drivers,
    id: &[u8; ID_BYTES],
    number: u64,
) -> u8
    ensures { NumberUnassigns Control (id_in id.entry) number words drivers result }
{
    bynumber::unassign(words, drivers, Kind::Control, id, number)
}
