// Reads the configuration of a console line: three masks in hex, then 512 hex digits for the hardware types.
//
// Rests on mask, errno, digits, split, linereader, masktext, rules and hexbytes.
#![tactic(auto)]

ghost use Rattle.std.specs.Prelude.{◌≡◌};
ghost use Rattle.errno.specs.Outcome.{outcome};
ghost use Rattle.masktext.specs.Text as Text;
ghost use Rattle.split.specs.Cut.{cut};
ghost use Rattle.configtext.specs.ConfigText.{hex_text, four_text, config_text};

use errno::Errno;
use linereader::LineReader;
use mask::Mask;
use rules::Configuration;

// The configuration of four words, parted by one space each.
#[tactic(auto, using(linereader::proofs::Laws::from_start, crate::proofs::Laws::counted), unfolding(errno::specs::Outcome::outcome))]
pub fn read(text: &[u8]) -> Result<Configuration, Errno>
    ensures { outcome result ≡ config_text (cut 32 text.now) }
{
    let mut words = LineReader::new(text, 0);
    match (
        words.next(),
        words.next(),
        words.next(),
        words.next(),
        words.next(),
    ) {
        (Some(adapters), Some(domains), Some(controls), Some(types), None) => {
            four(adapters, domains, controls, types)
        }
        _ => Err(Errno::Einval),
    }
}

fn four(
    adapters: &[u8],
    domains: &[u8],
    controls: &[u8],
    types: &[u8],
) -> Result<Configuration, Errno>
    ensures { outcome result ≡ four_text adapters.now domains.now controls.now types.now }
{
    Ok(Configuration {
        adapters: hex_mask(adapters)?,
        domains: hex_mask(domains)?,
        controls: hex_mask(controls)?,
        types: hexbytes::types(types)?,
    })
}

// A mask in its hex form.
fn hex_mask(word: &[u8]) -> Result<Mask, Errno>
    ensures { Text.outcome result ≡ hex_text word.now }
{
    if !digits::starts_hex(word) {
        return Err(Errno::Einval);
    }
    masktext::parse(word, Mask::empty())
}
