// A product of adapters and domains: the queues whose adapter and whose domain are both in it.
//
// Rests on mask, masks and rules. Whether a queue is in a product, and whether two products share one, is asked here alone.
#![tactic(auto)]

ghost use Rattle.std.specs.Prelude.{◌≡◌};
ghost use Rattle.mask.specs.Bits.{bits, no_bits};
ghost use Rattle.rules.specs.State.{apqn};
ghost use Rattle.product.specs.Meet.{queues_of, ProductOf, Meet, Row};

use mask::{Apid, Apqn, Mask};
use rules::Masks;

#[derive(Clone, Copy)]
pub struct Product {
    pub adapters: Mask,
    pub domains: Mask,
}

impl Product {
    // No queue.
    pub fn empty() -> Product
        ensures { ProductOf no_bits no_bits no_bits result }
    {
        Product {
            adapters: Mask::empty(),
            domains: Mask::empty(),
        }
    }

    // Whether a queue is in it.
    pub fn has(self, queue: Apqn) -> bool
        ensures { result ≡ queues_of self (apqn queue.adapter queue.domain) }
    {
        self.adapters.has(queue.adapter) && self.domains.has(queue.domain)
    }

    // Whether some queue is in both. No queue is looked at: it is so exactly when the adapters meet and the domains meet.
    pub fn meets(self, other: Product) -> bool
        ensures { Meet (queues_of self) (queues_of other) result }
    {
        masks::meets(self.adapters, other.adapters) && masks::meets(self.domains, other.domains)
    }

    // Its queues with an adapter, by their domains.
    pub fn row(self, adapter: Apid) -> Mask
        ensures { Row (queues_of self) adapter.0 (bits result) }
    {
        if self.adapters.has(adapter) {
            self.domains
        } else {
            Mask::empty()
        }
    }
}

// The queues of a matrix.
impl From<Masks> for Product {
    ghost from_gives = { λ m p. p ≡ record { adapters = m.adapters; domains = m.domains } };

    fn from(masks: Masks) -> Product {
        Product {
            adapters: masks.adapters,
            domains: masks.domains,
        }
    }
}
