// A fresh record of any limits.
//
// Rests on errno, mask, rules, layout, store and drivers.
#![tactic(auto)]

ghost use Rattle.std.specs.Prelude.{◌≡◌, ◌<◌, ◌≤◌, MatchResult};
ghost use Rattle.errno.specs.declared.Errno.TheVariants.{Einval};
ghost use Rattle.rules.specs.State.{slots};
ghost use Rattle.layout.specs.Layout.{fresh_words, no_configuration, clear_slots};
ghost use Rattle.setup.specs.Fresh.{Freshens};

use errno::Errno;
use layout::{Drivers, SLOTS, Words};
use mask::{Apid, Apqi, Mask};
use rules::{Answer, Configuration, Id};

// Makes the lent memory a fresh record. A limit above 255 is refused, and nothing is written.
pub fn fresh(words: &mut Words, drivers: &mut Drivers, adapter: u64, domain: u64) -> Answer
    ensures { Freshens adapter domain words.entry words.exit drivers.entry drivers.exit result }
{
    let adapter = limit(adapter)?;
    let domain = limit(domain)?;
    put_fresh(words, Apid(adapter), Apqi(domain));
    drivers::put_unbound(drivers);
    Ok(())
}

// A limit that is asked for: one above 255 is refused.
fn limit(n: u64) -> Result<u8, Errno>
    ensures { MatchResult result (λ l. (l ≡ n) × (n ≤ 255)) (λ e. (e ≡ Einval) × (255 < n)) }
{
    u8::try_from(n).map_err(|_| Errno::Einval)
}

// A fresh record: the limits, both host masks all ones, nothing configured, no device. Every word is written.
fn put_fresh(words: &mut Words, adapter: Apid, domain: Apqi)
    ensures { words.new ≡ fresh_words adapter.0 domain.0 }
{
    layout::hold_words(words);
    let ones = Mask::full();
    store::put_limits(words, adapter, domain);
    store::put_apmask(words, ones);
    store::put_aqmask(words, ones);
    store::put_configuration(words, nothing_configured());
    clear_slots(words);
}

// The configuration of a fresh record, with hardware type 0 for all 256 adapters.
fn nothing_configured() -> Configuration
    ensures { result ≡ no_configuration }
{
    let none = Mask::empty();
    Configuration {
        adapters: none,
        domains: none,
        controls: none,
        types: [0u8; 256],
    }
}

fn clear_slots(words: &mut Words)
    ensures { words.new ≡ clear_slots words.old slots }
{
    for slot in 0..SLOTS {
        store::put_device(words, slot, false, Id { hi: 0, lo: 0 });
    }
}
