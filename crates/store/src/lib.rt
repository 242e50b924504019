// Writes the words of the record that the caller lends. `record` reads them.
//
// Rests on mask, rules and layout.
#![tactic(auto)]

ghost use Rattle.std.specs.Prelude.{◌≡◌, ◌+◌, ◌<◌, cond, get_or};
ghost use Rattle.mask.specs.Bits.{bits};
ghost use Rattle.layout.specs.Layout.{word_count, apmask_at, aqmask_at};
ghost use Rattle.layout.specs.Layout.{put_four, put_limits, put_numbers, put_open, put_device, put_types, put_config};

use layout::{
    ADAPTERS, APMASK, AQMASK, CONTROLS, DOMAINS, ID_HI, ID_LO, MAX_ADAPTER, MAX_DOMAIN, OPEN,
    PRESENT, SLOTS, TYPES, Words,
};
use mask::{Apid, Apqi, Mask};
use rules::{Configuration, Id, Kind};

fn put_mask(words: &mut Words, at: usize, mask: Mask)
    requires { at + 3 < word_count }
    ensures { words.new ≡ put_four words.old at mask.words }
{
    words[at..at + 4].copy_from_slice(&mask.words);
}

pub fn put_limits(words: &mut Words, adapter: Apid, domain: Apqi)
    ensures { words.new ≡ put_limits words.old adapter.0 domain.0 }
{
    words[MAX_ADAPTER] = u64::from(adapter.0);
    words[MAX_DOMAIN] = u64::from(domain.0);
}

pub fn put_apmask(words: &mut Words, mask: Mask)
    ensures { words.new ≡ put_four words.old apmask_at mask.words }
{
    put_mask(words, APMASK, mask);
}

pub fn put_aqmask(words: &mut Words, mask: Mask)
    ensures { words.new ≡ put_four words.old aqmask_at mask.words }
{
    put_mask(words, AQMASK, mask);
}

pub fn put_numbers(words: &mut Words, slot: usize, kind: Kind, mask: Mask)
    ensures { words.new ≡ put_numbers words.old slot kind mask.words }
{
    if slot < SLOTS {
        put_mask(words, layout::slot_at(slot) + layout::kind_at(kind), mask);
    }
}

pub fn put_open(words: &mut Words, slot: usize, opened: bool)
    ensures { words.new ≡ put_open words.old slot opened }
{
    if slot < SLOTS {
        words[layout::slot_at(slot) + OPEN] = u64::from(opened);
    }
}

// Gives a slot to a device with an id, or empties it: nothing is assigned, and it is not open.
pub fn put_device(words: &mut Words, slot: usize, present: bool, id: Id)
    ensures { words.new ≡ put_device words.old slot present id }
{
    if slot < SLOTS {
        let k = layout::slot_at(slot);
        words[k + PRESENT] = u64::from(present);
        words[k + OPEN] = 0;
        words[k + ID_HI] = id.hi;
        words[k + ID_LO] = id.lo;
        let none = Mask::empty();
        put_numbers(words, slot, Kind::Adapter, none);
        put_numbers(words, slot, Kind::Domain, none);
        put_numbers(words, slot, Kind::Control, none);
    }
}

pub fn put_configuration(words: &mut Words, configuration: Configuration)
    ensures { words.new ≡ put_config words.old configuration }
{
    put_mask(words, ADAPTERS, configuration.adapters);
    put_mask(words, DOMAINS, configuration.domains);
    put_mask(words, CONTROLS, configuration.controls);
    put_types(words, configuration.adapters, configuration.types);
}

fn put_types(words: &mut Words, adapters: Mask, types: [u8; 256])
    ensures { words.new ≡ put_types words.old (λ a. cond (bits adapters a) (get_or types a 0) 0) 256 }
{
    for (a, t) in types.iter().enumerate() {
        words[TYPES + a] = type_of(adapters.has(Apid(a as u8)), *t);
    }
}

fn type_of(configured: bool, t: u8) -> u64
    ensures { result ≡ cond configured t 0 }
{
    if configured { u64::from(t) } else { 0 }
}
