// Looking through the devices of a record: the slot of an id, a free slot, and whether queues are assigned.
//
// Rests on mask, rules, product, products, layout and record.
#![tactic(auto)]

ghost use Rattle.std.specs.Prelude.{◌&&◌, ◌≡◌};
ghost use Rattle.mask.specs.Bits.{some_below, both};
ghost use Rattle.rules.specs.State.{queues};
ghost use Rattle.rules.specs.Commands.{same_id, found, slot_of, free_slot, product, assigned_elsewhere};
ghost use Rattle.product.specs.Meet.{queues_of};
ghost use Rattle.layout.specs.Lent.{devices};

use layout::{SLOTS, Words};
use product::Product;
use rules::Id;

// The slot of the device with an id.
pub fn find(words: &Words, id: Id) -> Option<usize>
    ensures { result ≡ found (slot_of id (devices words.entry)) }
{
    (0..SLOTS).find(|&slot| is_at(words, slot, id))
}

// Whether the device with an id is at a slot.
fn is_at(words: &Words, slot: usize, id: Id) -> bool
    ensures { result ≡ ((devices words.entry slot).present && same_id id (devices words.entry slot).id) }
{
    occupied(words, slot) && id == record::id(words, slot)
}

// Whether there is a device at a slot, open or not.
fn occupied(words: &Words, slot: usize) -> bool
    ensures { result ≡ (devices words.entry slot).present }
{
    record::present(words, slot)
}

// The lowest free slot.
pub fn free(words: &Words) -> Option<usize>
    ensures { result ≡ found (free_slot (devices words.entry)) }
{
    (0..SLOTS).find(|&slot| !occupied(words, slot))
}

// Whether a queue that is wanted is assigned to another device than the one at a slot.
pub fn taken(words: &Words, slot: usize, wanted: Product) -> bool
    ensures { result ≡ some_below queues (both (queues_of wanted) (assigned_elsewhere slot (devices words.entry))) }
{
    (0..SLOTS).any(|other| other != slot && shares(words, other, wanted))
}

// Whether a queue that is wanted is assigned to the device at a slot.
fn shares(words: &Words, slot: usize, wanted: Product) -> bool
    ensures { result ≡ some_below queues (both (queues_of wanted) (product (devices words.entry slot))) }
{
    wanted.meets(products::assigned(words, slot))
}
