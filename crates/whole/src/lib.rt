// Commands on a whole record, with ids, texts and configurations as bytes: what a caller in C asks for.
//
// Rests on rules, fields, layout, model, host, configure, create, devices and served.
#![tactic(auto)]

ghost use Rattle.fields.specs.Fields.{configuration_of};
ghost use Rattle.model.specs.Steps.{create, remove, open_it, close_it, set_apmask, set_aqmask, configure};
ghost use Rattle.served.specs.Served.{id_in, Serves};

use fields::{CONFIGURATION_BYTES, ID_BYTES};
use layout::{Drivers, Words};

pub fn create(words: &mut Words, drivers: &mut Drivers, id: &[u8; ID_BYTES]) -> u8
    ensures { Serves (create (id_in id.entry)) words drivers result }
{
    rules::answer_number(create::create(words, fields::id_of(id)))
}

pub fn remove(words: &mut Words, drivers: &mut Drivers, id: &[u8; ID_BYTES]) -> u8
    ensures { Serves (remove (id_in id.entry)) words drivers result }
{
    rules::answer_number(devices::remove(words, fields::id_of(id)))
}

pub fn open(words: &mut Words, drivers: &mut Drivers, id: &[u8; ID_BYTES]) -> u8
    ensures { Serves (open_it (id_in id.entry)) words drivers result }
{
    rules::answer_number(devices::open(words, fields::id_of(id)))
}

pub fn close(words: &mut Words, drivers: &mut Drivers, id: &[u8; ID_BYTES]) -> u8
    ensures { Serves (close_it (id_in id.entry)) words drivers result }
{
    rules::answer_number(devices::close(words, fields::id_of(id)))
}

pub fn set_apmask(words: &mut Words, drivers: &mut Drivers, text: &[u8]) -> u8
    ensures { Serves (set_apmask text.now) words drivers result }
{
    rules::answer_number(host::set_apmask(words, text))
}

pub fn set_aqmask(words: &mut Words, drivers: &mut Drivers, text: &[u8]) -> u8
    ensures { Serves (set_aqmask text.now) words drivers result }
{
    rules::answer_number(host::set_aqmask(words, text))
}

// Three masks of 32 bytes in mask order, then 256 hardware types.
pub fn configure(
    words: &mut Words,
    drivers: &mut Drivers,
    configuration: &[u8; CONFIGURATION_BYTES],
) -> u8
    ensures { Serves (configure (configuration_of configuration.now)) words drivers result }
{
    rules::answer_number(configure::configure(
        words,
        drivers,
        fields::configuration_of(configuration),
    ))
}
