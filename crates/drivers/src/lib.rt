// The drivers of the queues in the memory that the caller lends. No other crate's code knows a queue's byte.
//
// Rests on mask, rules and layout.
#![tactic(auto)]

ghost use Rattle.std.specs.Prelude.{◌≡◌, get_or, set, replicate};
ghost use Rattle.rules.specs.State.{queues, apqn};
ghost use Rattle.layout.specs.Layout.{driver_of, byte_of};

use layout::Drivers;
use mask::Apqn;
use rules::{Driver, QUEUES};

#[tactic(auto, unfolding(layout::specs::Layout::driver_of))]
pub fn driver(drivers: &Drivers, queue: Apqn) -> Driver
    ensures { result ≡ driver_of (get_or drivers.now (apqn queue.adapter queue.domain) 0) }
{
    match drivers[index(queue)] {
        1 => Driver::Host,
        2 => Driver::Passthrough,
        _ => Driver::Unbound,
    }
}

pub fn put_driver(drivers: &mut Drivers, queue: Apqn, driver: Driver)
    ensures { drivers.new ≡ set drivers.old (apqn queue.adapter queue.domain) (byte_of driver) }
{
    drivers[index(queue)] = byte(driver);
}

// Unbinds every queue.
pub fn put_unbound(drivers: &mut Drivers)
    ensures { drivers.new ≡ replicate queues 0 }
{
    *drivers = [0u8; QUEUES];
}

// Where a queue's byte lies.
fn index(queue: Apqn) -> usize
    ensures { result ≡ apqn queue.adapter queue.domain }
{
    usize::from(queue.adapter.0) * 256 + usize::from(queue.domain.0)
}

#[tactic(auto, unfolding(layout::specs::Layout::byte_of))]
fn byte(driver: Driver) -> u8
    ensures { result ≡ byte_of driver }
{
    match driver {
        Driver::Unbound => 0,
        Driver::Host => 1,
        Driver::Passthrough => 2,
    }
}
