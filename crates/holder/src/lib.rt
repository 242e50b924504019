// Which device has a queue.
//
// Rests on mask, rules, product, products and layout.
#![tactic(auto)]

ghost use Rattle.std.specs.Prelude.{◌≡◌};
ghost use Rattle.rules.specs.State.{apqn};
ghost use Rattle.rules.specs.Commands.{found, product};
ghost use Rattle.layout.specs.Lent.{devices};
ghost use Rattle.holder.specs.Holder.{holder_of};

use layout::{SLOTS, Words};
use mask::Apqn;

// The slot of the device that has a queue, open or not.
pub fn holder(words: &Words, queue: Apqn) -> Option<usize>
    ensures { result ≡ found (holder_of (devices words.entry) (apqn queue.adapter queue.domain)) }
{
    (0..SLOTS).find(|&slot| holds(words, slot, queue))
}

// Whether the device at a slot has a queue.
fn holds(words: &Words, slot: usize, queue: Apqn) -> bool
    ensures { result ≡ product (devices words.entry slot) (apqn queue.adapter queue.domain) }
{
    products::assigned(words, slot).has(queue)
}
