// The host's masks: apmask and aqmask.
//
// Rests on errno, mask, masktext, rules, product, products, layout, store and lookup.
#![tactic(auto)]

ghost use Rattle.std.specs.Prelude.{◌≡◌};
ghost use Rattle.mask.specs.Bits.{Sized};
ghost use Rattle.rules.specs.Commands.{set_apmask, set_aqmask};
ghost use Rattle.layout.specs.Lent.{devices};
ghost use Rattle.layout.specs.Carried.{Obeys};
ghost use Rattle.product.specs.Meet.{queues_of};
ghost use Rattle.host.specs.Masks.{with_apmask, with_aqmask, unassigned};

use errno::Errno;
use layout::{SLOTS, Words};
use product::Product;
use rules::Answer;

pub fn set_apmask(words: &mut Words, text: &[u8]) -> Answer
    ensures { Obeys (set_apmask text.now) (with_apmask text.now) words.entry words.exit result }
{
    layout::hold_words(words);
    let mut reserved = products::reserved(words);
    reserved.adapters = masktext::parse(text, reserved.adapters)?;
    check_unassigned(words, reserved)?;
    store::put_apmask(words, reserved.adapters);
    Ok(())
}

pub fn set_aqmask(words: &mut Words, text: &[u8]) -> Answer
    ensures { Obeys (set_aqmask text.now) (with_aqmask text.now) words.entry words.exit result }
{
    layout::hold_words(words);
    let mut reserved = products::reserved(words);
    reserved.domains = masktext::parse(text, reserved.domains)?;
    check_unassigned(words, reserved)?;
    store::put_aqmask(words, reserved.domains);
    Ok(())
}

// Queues that are to be reserved are refused if one of them is assigned. Their masks have four words each.
fn check_unassigned(words: &Words, reserved: Product) -> Answer
    ensures answer { result ≡ unassigned (queues_of reserved) (devices words.entry) }
    ensures sized { Sized 64 4 reserved.adapters.words × Sized 64 4 reserved.domains.words }
{
    if lookup::taken(words, SLOTS, reserved) {
        return Err(Errno::Eaddrinuse);
    }
    Ok(())
}
