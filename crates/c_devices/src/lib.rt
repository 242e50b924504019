// The C interface to a record and its devices: fresh, create, remove, open, close. include/zokormendu.h has the declarations.
//
// Rests on rules, fields, layout, model, setup, served and whole.
#![tactic(auto)]

ghost use Rattle.model.specs.Steps.{create, remove, open_it, close_it};
ghost use Rattle.served.specs.Served.{id_in, FreshServes, Serves};

use fields::ID_BYTES;
use layout::{Drivers, Words};

// Makes the lent memory a fresh record.
#[unsafe(no_mangle)]
pub extern "C" fn zk_raw_fresh(
    words: &mut Words,
    drivers: &mut Drivers,
    adapter: u64,
    domain: u64,
) -> u8
    ensures { FreshServes adapter domain words drivers result }
{
    rules::answer_number(setup::fresh(words, drivers, adapter, domain))
}

// The four of a device's life.
#[unsafe(no_mangle)]
pub extern "C" fn zk_raw_create(words: &mut Words, drivers: &mut Drivers, id: &[u8; ID_BYTES]) -> u8
    ensures { Serves (create (id_in id.entry)) words drivers result }
{
    whole::create(words, drivers, id)
}

#[unsafe(no_mangle)]
pub extern "C" fn zk_raw_remove(words: &mut Words, drivers: &mut Drivers, id: &[u8; ID_BYTES]) -> u8
    ensures { Serves (remove (id_in id.entry)) words drivers result }
{
    whole::remove(words, drivers, id)
}

#[unsafe(no_mangle)]
pub extern "C" fn zk_raw_open(words: &mut Words, drivers: &mut Drivers, id: &[u8; ID_BYTES]) -> u8
    ensures { Serves (open_it (id_in id.entry)) words drivers result }
{
    whole::open(words, drivers, id)
}

#[unsafe(no_mangle)]
pub extern "C" fn zk_raw_close(words: &mut Words, drivers: &mut Drivers, id: &[u8; ID_BYTES]) -> u8
    ensures { Serves (close_it (id_in id.entry)) words drivers result }
{
    whole::close(words, drivers, id)
}
