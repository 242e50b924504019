// Reads the words of the record that the caller lends. `store` writes them.
//
// Rests on mask, rules and layout.
#![tactic(auto)]

ghost use Rattle.std.specs.Prelude.{◌≡◌, ◌+◌, ◌<◌, min, cond, get_or, ltb};
ghost use Rattle.mask.specs.Bits.{bits};
ghost use Rattle.rules.specs.Commands.{numbers_of};
ghost use Rattle.layout.specs.Layout.{word_count, slot_words, device_at, four};
ghost use Rattle.rules.specs.State.{slots};
ghost use Rattle.layout.specs.Lent.{limits, host, config, devices};

use layout::{
    ADAPTERS, APMASK, AQMASK, CONTROLS, DOMAINS, ID_HI, ID_LO, MAX_ADAPTER, MAX_DOMAIN, OPEN,
    PRESENT, SLOTS, TYPES, Words,
};
use mask::{Apid, Apqi, Mask};
use rules::{Id, Kind};

// Four words as a mask.
fn mask_at(words: &Words, at: usize) -> Mask
    requires { at + 3 < word_count }
    ensures { result.words ≡ four words.now at }
{
    Mask {
        words: [words[at], words[at + 1], words[at + 2], words[at + 3]],
    }
}

pub fn max_adapter(words: &Words) -> Apid
    ensures { result.0 ≡ (limits words.entry).adapter }
{
    Apid(limit(words[MAX_ADAPTER]))
}

pub fn max_domain(words: &Words) -> Apqi
    ensures { result.0 ≡ (limits words.entry).domain }
{
    Apqi(limit(words[MAX_DOMAIN]))
}

// A limit that is read: a word above 255 counts as 255.
fn limit(w: u64) -> u8
    ensures { result ≡ min w 255 }
{
    u8::try_from(w).unwrap_or(u8::MAX)
}

pub fn apmask(words: &Words) -> Mask
    ensures { bits result ≡ (host words.entry).apmask }
{
    mask_at(words, APMASK)
}

pub fn aqmask(words: &Words) -> Mask
    ensures { bits result ≡ (host words.entry).aqmask }
{
    mask_at(words, AQMASK)
}

pub fn configured_adapters(words: &Words) -> Mask
    ensures { bits result ≡ (config words.entry).adapters }
{
    mask_at(words, ADAPTERS)
}

pub fn configured_domains(words: &Words) -> Mask
    ensures { bits result ≡ (config words.entry).domains }
{
    mask_at(words, DOMAINS)
}

pub fn configured_controls(words: &Words) -> Mask
    ensures { bits result ≡ (config words.entry).controls }
{
    mask_at(words, CONTROLS)
}

pub fn hardware_type(words: &Words, adapter: Apid) -> u64
    ensures { result ≡ (config words.entry).types adapter.0 }
{
    words[TYPES + usize::from(adapter.0)]
}

// A word of a slot, or 0 past the last slot.
fn slot_word(words: &Words, slot: usize, k: usize) -> u64
    requires { k < slot_words }
    ensures { result ≡ cond (ltb slot slots) (get_or words.now (device_at slot + k) 0) 0 }
{
    if slot < SLOTS {
        words[layout::slot_at(slot) + k]
    } else {
        0
    }
}

// Whether there is a device at a slot. Here and below there is none past the last slot.
pub fn present(words: &Words, slot: usize) -> bool
    ensures { result ≡ (devices words.entry slot).present }
{
    slot_word(words, slot, PRESENT) != 0
}

pub fn is_open(words: &Words, slot: usize) -> bool
    ensures { result ≡ (devices words.entry slot).is_open }
{
    slot_word(words, slot, OPEN) != 0
}

pub fn id(words: &Words, slot: usize) -> Id
    ensures { result ≡ (devices words.entry slot).id }
{
    Id {
        hi: slot_word(words, slot, ID_HI),
        lo: slot_word(words, slot, ID_LO),
    }
}

// The assigned adapters, domains or control domains of the device at a slot.
pub fn numbers(words: &Words, slot: usize, kind: Kind) -> Mask
    ensures { bits result ≡ numbers_of kind (devices words.entry slot) }
{
    if slot < SLOTS {
        mask_at(words, layout::slot_at(slot) + layout::kind_at(kind))
    } else {
        Mask::empty()
    }
}
