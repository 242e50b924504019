// A queue's driver and its target, as numbers.
//
// Rests on mask, rules, layout, drivers and target.
#![tactic(auto)]

ghost use Rattle.std.specs.Prelude.{◌≡◌, get_or};
ghost use Rattle.rules.specs.State.{apqn};
ghost use Rattle.rules.specs.Queues.{target_of};
ghost use Rattle.layout.specs.Layout.{driver_of};
ghost use Rattle.layout.specs.Lent.{host, config};
ghost use Rattle.drivernumbers.specs.Numbers.{driver_number};

use layout::{Drivers, Words};
use mask::Apqn;
use rules::Driver;

// The driver that a queue has.
pub fn driver(drivers: &Drivers, queue: Apqn) -> u8
    ensures { result ≡ driver_number (driver_of (get_or drivers.now (apqn queue.adapter queue.domain) 0)) }
{
    number(drivers::driver(drivers, queue))
}

// The driver that a queue should have.
pub fn target(words: &Words, queue: Apqn) -> u8
    ensures { result ≡ driver_number (target_of (host words.entry) (config words.entry) (apqn queue.adapter queue.domain)) }
{
    number(target::target(words, queue))
}

fn number(driver: Driver) -> u8
    ensures { result ≡ driver_number driver }
{
    match driver {
        Driver::Unbound => 0,
        Driver::Host => 1,
        Driver::Passthrough => 2,
    }
}
