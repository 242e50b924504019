// Where a queue belongs: the driver that it should have.
//
// Rests on mask, rules, product, products, layout and record.
#![tactic(auto)]

ghost use Rattle.std.specs.Prelude.{◌≡◌};
ghost use Rattle.rules.specs.Queues.{target_of};
ghost use Rattle.rules.specs.State.{apqn};
ghost use Rattle.layout.specs.Lent.{host, config};

use layout::Words;
use mask::Apqn;
use rules::{Driver, LOWEST_PASSED_TYPE};

// The driver that a queue should have.
pub fn target(words: &Words, queue: Apqn) -> Driver
    ensures { result ≡ target_of (host words.entry) (config words.entry) (apqn queue.adapter queue.domain) }
{
    if !products::configured(words).has(queue) {
        Driver::Unbound
    } else if products::reserved(words).has(queue) {
        Driver::Host
    } else if record::hardware_type(words, queue.adapter) < LOWEST_PASSED_TYPE {
        Driver::Unbound
    } else {
        Driver::Passthrough
    }
}
