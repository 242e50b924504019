// The C interface to the host's masks and the configuration: setting them. include/zokormendu.h has the declarations.
//
// Rests on fields, layout, model, served and whole.
#![tactic(auto)]

ghost use Rattle.fields.specs.Fields.{configuration_of};
ghost use Rattle.model.specs.Steps.{set_apmask, set_aqmask, configure};
ghost use Rattle.served.specs.Served.{Serves};

use fields::CONFIGURATION_BYTES;
use layout::{Drivers, Words};

#[unsafe(no_mangle)]
pub extern "C" fn zk_raw_set_apmask(words: &mut Words, drivers: &mut Drivers, text: &[u8]) -> u8
    ensures { Serves (set_apmask text.now) words drivers result }
{
    whole::set_apmask(words, drivers, text)
}

#[unsafe(no_mangle)]
pub extern "C" fn zk_raw_set_aqmask(words: &mut Words, drivers: &mut Drivers, text: &[u8]) -> u8
    ensures { Serves (set_aqmask text.now) words drivers result }
{
    whole::set_aqmask(words, drivers, text)
}

// Three masks of 32 bytes in mask order, then 256 hardware types.
#[unsafe(no_mangle)]
pub extern "C" fn zk_raw_configure(
    words: &mut Words,
    drivers: &mut Drivers,
    configuration: &[u8; CONFIGURATION_BYTES],
) -> u8
    ensures { Serves (configure (configuration_of configuration.now)) words drivers result }
{
    whole::configure(words, drivers, configuration)
}
