// A move of one queue towards its target.
//
// Rests on mask, rules, layout, drivers and target.
#![tactic(auto)]

ghost use Rattle.std.specs.Prelude.{◌≡◌};
ghost use Rattle.rules.specs.Queues.{moved};
ghost use Rattle.rules.specs.State.{apqn};
ghost use Rattle.bind.specs.Moves.{Moves};

use layout::{Drivers, Words};
use mask::Apqn;
use rules::{Driver, Moved};

// Moves one queue a step towards its target. It is never refused.
pub fn move_queue(words: &Words, drivers: &mut Drivers, queue: Apqn) -> Moved
    ensures { Moves (apqn queue.adapter queue.domain) words.entry drivers.entry drivers.exit result }
{
    let m = moved_by(
        drivers::driver(drivers, queue),
        target::target(words, queue),
    );
    match m {
        Moved::Idle => {}
        Moved::Released => drivers::put_driver(drivers, queue, Driver::Unbound),
        Moved::BoundHost => drivers::put_driver(drivers, queue, Driver::Host),
        Moved::BoundPassthrough => drivers::put_driver(drivers, queue, Driver::Passthrough),
    }
    m
}

fn moved_by(driver: Driver, target: Driver) -> Moved
    ensures { result ≡ moved driver target }
{
    if driver == target {
        return Moved::Idle;
    }
    match (driver, target) {
        (Driver::Unbound, Driver::Host) => Moved::BoundHost,
        (Driver::Unbound, Driver::Passthrough) => Moved::BoundPassthrough,
        _ => Moved::Released,
    }
}
