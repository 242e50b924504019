// The C interface to what a record holds of the host: limits, masks and configuration, read back. include/zokormendu.h has the
// declarations.
//
// Rests on fields, layout, record, matrixbytes and hostbytes.
#![tactic(auto)]

ghost use Rattle.std.specs.Prelude.{◌≡◌};
ghost use Rattle.layout.specs.Lent.{limits, host, config};
ghost use Rattle.matrixbytes.specs.Matrices.{mask_bytes};
ghost use Rattle.hostbytes.specs.Configurations.{configuration_bytes};

use fields::CONFIGURATION_BYTES;
use layout::{Drivers, Words};
use matrixbytes::MASK_BYTES;

#[unsafe(no_mangle)]
pub extern "C" fn zk_raw_highest_adapter(words: &Words, drivers: &Drivers) -> u8
    ensures { result ≡ (limits words.entry).adapter }
{
    record::max_adapter(words).0
}

#[unsafe(no_mangle)]
pub extern "C" fn zk_raw_highest_domain(words: &Words, drivers: &Drivers) -> u8
    ensures { result ≡ (limits words.entry).domain }
{
    record::max_domain(words).0
}

#[unsafe(no_mangle)]
pub extern "C" fn zk_raw_apmask(words: &Words, drivers: &Drivers, mask: &mut [u8; MASK_BYTES])
    ensures { mask.new ≡ mask_bytes (host words.entry).apmask }
{
    hostbytes::apmask(words, mask);
}

#[unsafe(no_mangle)]
pub extern "C" fn zk_raw_aqmask(words: &Words, drivers: &Drivers, mask: &mut [u8; MASK_BYTES])
    ensures { mask.new ≡ mask_bytes (host words.entry).aqmask }
{
    hostbytes::aqmask(words, mask);
}

#[unsafe(no_mangle)]
pub extern "C" fn zk_raw_configuration(
    words: &Words,
    drivers: &Drivers,
    configuration: &mut [u8; CONFIGURATION_BYTES],
)
    ensures { configuration.new ≡ configuration_bytes (config words.entry) }
{
    hostbytes::configuration(words, configuration);
}
