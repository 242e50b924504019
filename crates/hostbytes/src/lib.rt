// What a record holds of the host, as bytes: apmask and aqmask, and the configuration in the form in which it is set, three masks of
// 32 bytes and 256 hardware types.
//
// Rests on mask, maskbytes, rules, fields, layout, record, matrixbytes and rows.
#![tactic(auto)]

ghost use Rattle.std.specs.Prelude.{◌≡◌, min, length};
ghost use Rattle.layout.specs.Lent.{host, config};
ghost use Rattle.matrixbytes.specs.Matrices.{mask_bytes};
ghost use Rattle.hostbytes.specs.Configurations.{type_bytes, configuration_bytes};

use fields::CONFIGURATION_BYTES;
use layout::Words;
use mask::Apid;
use matrixbytes::{MASK_BYTES, MASKS_BYTES};
use rules::Masks;

pub fn apmask(words: &Words, out: &mut [u8; MASK_BYTES])
    ensures { out.new ≡ mask_bytes (host words.entry).apmask }
{
    *out = maskbytes::to_bytes(record::apmask(words));
}

pub fn aqmask(words: &Words, out: &mut [u8; MASK_BYTES])
    ensures { out.new ≡ mask_bytes (host words.entry).aqmask }
{
    *out = maskbytes::to_bytes(record::aqmask(words));
}

// Writes the configuration.
pub fn configuration(words: &Words, out: &mut [u8; CONFIGURATION_BYTES])
    ensures { out.new ≡ configuration_bytes (config words.entry) }
{
    let mut front = [0u8; MASKS_BYTES];
    let m = Masks {
        adapters: record::configured_adapters(words),
        domains: record::configured_domains(words),
        controls: record::configured_controls(words),
    };
    matrixbytes::put_masks(m, &mut front);
    out[..MASKS_BYTES].copy_from_slice(&front);
    put_types(words, &mut out[MASKS_BYTES..]);
}

// Writes a byte for the type of each adapter.
fn put_types(words: &Words, out: &mut [u8])
    requires { length out.old ≡ 256 }
    ensures { out.new ≡ type_bytes (config words.entry) }
{
    for (adapter, byte) in out.iter_mut().enumerate() {
        *byte = type_byte(record::hardware_type(words, Apid(adapter as u8)));
    }
}

// A type is written as at most 255.
fn type_byte(t: u64) -> u8
    ensures { result ≡ min t 255 }
{
    u8::try_from(t).unwrap_or(u8::MAX)
}
