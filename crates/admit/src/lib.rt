// Whether a number can be assigned to a device: its range, and the queues that it adds. Nothing is changed.
//
// Rests on errno, mask, rules, product, products, layout, record and lookup.
#![tactic(auto)]

ghost use Rattle.std.specs.Prelude.{◌≡◌, leb};
ghost use Rattle.mask.specs.Bits.{some_below, both};
ghost use Rattle.rules.specs.State.{queues};
ghost use Rattle.rules.specs.Queues.{reserved};
ghost use Rattle.rules.specs.Commands.{paired, limit_of};
ghost use Rattle.layout.specs.Lent.{limits, host, devices};
ghost use Rattle.product.specs.Meet.{queues_of};
ghost use Rattle.admit.specs.Admits.{Admits};

use errno::Errno;
use layout::Words;
use mask::Mask;
use product::Product;
use rules::{Answer, Kind};

// Whether a number is at most the limit of its kind.
pub fn in_range(words: &Words, kind: Kind, number: u64) -> bool
    ensures { result ≡ leb number (limit_of kind (limits words.entry)) }
{
    number <= u64::from(limit(words, kind))
}

// The limit of a kind of number.
#[tactic(auto, unfolding(rules::specs::Commands::limit_of))]
fn limit(words: &Words, kind: Kind) -> u8
    ensures { result ≡ limit_of kind (limits words.entry) }
{
    match kind {
        Kind::Adapter => record::max_adapter(words).0,
        Kind::Domain | Kind::Control => record::max_domain(words).0,
    }
}

// Whether queues that are wanted can be added to the device at a slot.
pub fn admitted(words: &Words, slot: usize, wanted: Product) -> Answer
    ensures { Admits (queues_of wanted) slot words.entry result }
{
    if reserved(words, wanted) {
        return Err(Errno::Eaddrnotavail);
    }
    if lookup::taken(words, slot, wanted) {
        return Err(Errno::Eaddrinuse);
    }
    Ok(())
}

// Whether a queue that is wanted is reserved for the host.
fn reserved(words: &Words, wanted: Product) -> bool
    ensures { result ≡ some_below queues (both (queues_of wanted) (reserved (host words.entry))) }
{
    wanted.meets(products::reserved(words))
}

// The queues that a new number pairs with the device's numbers of the other kind, as a product.
pub fn paired(words: &Words, kind: Kind, slot: usize, number: u8) -> Product
    ensures { queues_of result ≡ paired kind number (devices words.entry slot) }
{
    let one = Mask::empty().with(number);
    match kind {
        Kind::Adapter => Product {
            adapters: one,
            domains: record::numbers(words, slot, Kind::Domain),
        },
        Kind::Domain => Product {
            adapters: record::numbers(words, slot, Kind::Adapter),
            domains: one,
        },
        Kind::Control => Product::empty(),
    }
}
