// What a guest gets: a device's masks, and whether a queue is usable now.
//
// Rests on mask, errno, rules, layout, product, record, lookup and matrix.
#![tactic(auto)]

ghost use Rattle.std.specs.Prelude.{◌≡◌};
ghost use Rattle.rules.specs.State.{apqn};
ghost use Rattle.rules.specs.Queues.{usable};
ghost use Rattle.layout.specs.Lent.{devices, state};
ghost use Rattle.guest.specs.Masks.{Shows, usable_with};

use errno::Errno;
use layout::{Drivers, Words};
use mask::Apqn;
use product::Product;
use rules::{Id, Masks, Matrix};

// A matrix of the device with an id.
pub fn masks(words: &Words, drivers: &Drivers, id: Id, matrix: Matrix) -> Result<Masks, Errno>
    ensures { Shows (state words.entry drivers.entry) id matrix result }
{
    let slot = lookup::find(words, id).ok_or(Errno::Enoent)?;
    Ok(matrix::masks_at(words, drivers, slot, matrix))
}

// Whether a guest can use a queue: the device with the id is open, and the queue is in its guest masks.
pub fn usable(words: &Words, drivers: &Drivers, id: Id, queue: Apqn) -> bool
    ensures { result ≡ usable_with id (state words.entry drivers.entry) (apqn queue.adapter queue.domain) }
{
    match lookup::find(words, id) {
        None => false,
        Some(slot) => usable_at(words, drivers, slot, queue),
    }
}

// The same for the guest of the device at a slot.
fn usable_at(words: &Words, drivers: &Drivers, slot: usize, queue: Apqn) -> bool
    ensures { result ≡ usable (state words.entry drivers.entry) (devices words.entry slot) (apqn queue.adapter queue.domain) }
{
    if !record::is_open(words, slot) {
        return false;
    }
    Product::from(matrix::masks_at(words, drivers, slot, Matrix::Guest)).has(queue)
}
