// The control domains that a guest gets.
//
// Rests on mask, masks, rules, layout and record.
#![tactic(auto)]

ghost use Rattle.std.specs.Prelude.{◌≡◌};
ghost use Rattle.mask.specs.Bits.{bits, either};
ghost use Rattle.layout.specs.Lent.{config, devices};
ghost use Rattle.controls.specs.Controls.{GuestControls};

use layout::Words;
use mask::Mask;
use rules::Kind;

// The control domains of the guest of the device at a slot: none past the last slot. A usage domain is a control domain too, so
// it counts on both sides.
pub fn guest_controls(words: &Words, slot: usize) -> Mask
    ensures { GuestControls words.now slot result }
{
    let assigned = assigned(words, slot);
    let configured = configured(words);
    masks::and(assigned, configured)
}

// The domains that are assigned to the device at a slot as control or usage domain.
fn assigned(words: &Words, slot: usize) -> Mask
    ensures { bits result ≡ either (devices words.entry slot).controls (devices words.entry slot).domains }
{
    let controls = record::numbers(words, slot, Kind::Control);
    let domains = record::numbers(words, slot, Kind::Domain);
    masks::or(controls, domains)
}

// The domains that are configured as control or usage domain.
fn configured(words: &Words) -> Mask
    ensures { bits result ≡ either (config words.entry).controls (config words.entry).domains }
{
    masks::or(
        record::configured_controls(words),
        record::configured_domains(words),
    )
}
