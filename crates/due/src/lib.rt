// How far queues are from their targets: the moves that are due of one, and the moves remaining over all.
//
// Rests on mask, rules, layout, drivers, targetrow and ranges.
#![tactic(auto)]

ghost use Rattle.std.specs.Prelude.{◌≡◌, ◌*◌};
ghost use Rattle.rules.specs.Queues.{due, due_at, sum_from};
ghost use Rattle.layout.specs.Lent.{state};
ghost use Rattle.due.specs.Due.{Remains};

use layout::{Drivers, Words};
use mask::{Apid, Apqi, Apqn};
use rules::Driver;
use targetrow::TargetRow;

// The moves that a queue is from its target.
pub fn due_by(driver: Driver, target: Driver) -> u32
    ensures { result ≡ due driver target }
{
    match (driver, target) {
        (Driver::Unbound, Driver::Unbound)
        | (Driver::Host, Driver::Host)
        | (Driver::Passthrough, Driver::Passthrough) => 0,
        (Driver::Unbound, _) | (_, Driver::Unbound) => 1,
        _ => 2,
    }
}

// The moves remaining, over all queues.
pub fn remaining(words: &Words, drivers: &Drivers) -> u32
    ensures { Remains words.entry drivers.entry result }
{
    let mut sum = 0;
    for adapter in 0..=255u8 {
        sum += remaining_row(words, drivers, Apid(adapter));
    }
    sum
}

// Those of one adapter's queues.
fn remaining_row(words: &Words, drivers: &Drivers, adapter: Apid) -> u32
    ensures { result ≡ sum_from 256 (adapter.0 * 256) (due_at (state words.entry drivers.entry)) }
{
    let row = TargetRow::of(words, adapter);
    (0..=255u8)
        .map(|n| {
            let queue = Apqn {
                adapter,
                domain: Apqi(n),
            };
            due_by(drivers::driver(drivers, queue), row.target(queue.domain))
        })
        .sum()
}
