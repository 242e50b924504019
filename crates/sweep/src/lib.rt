// Sweeps: moves one after another over all queues, as many as a budget allows.
//
// Rests on mask, rules, layout, drivers, targetrow, bind and due.
#![tactic(auto)]

ghost use Rattle.std.specs.Prelude.{◌≡◌, ◌*◌};
ghost use Rattle.rules.specs.State.{apqn, queues};
ghost use Rattle.sweep.specs.Sweeps.{moves_bytes, finished_bytes, PartSweeps, Sweeps};

use layout::{Drivers, Words};
use mask::{Apid, Apqi, Apqn};
use rules::Driver;
use targetrow::TargetRow;

// A larger budget is taken as this one: two moves of each queue.
pub const MOST_MOVES: u32 = 131072;

// What a sweep reports: the moves it made, and whether any remain.
#[derive(Clone, Copy)]
pub struct Swept {
    pub used: u32,
    pub more: bool,
}

// Makes as many moves as the budget allows, by ascending queue, and finishes each queue before the next.
pub fn sweep(words: &Words, drivers: &mut Drivers, budget: u32) -> Swept
    ensures { Sweeps budget words.entry drivers.entry drivers.exit result }
{
    let most = budget.min(MOST_MOVES);
    match sweep_rows(words, drivers, most) {
        Some(left) => Swept {
            used: most - left,
            more: false,
        },
        None => Swept {
            used: most,
            more: true,
        },
    }
}

// The same for all queues, with some moves to make. Answers the moves that are left, or none where more were due.
fn sweep_rows(words: &Words, drivers: &mut Drivers, moves: u32) -> Option<u32>
    ensures { PartSweeps moves queues 0 words.entry drivers.entry drivers.exit result }
{
    let mut left = moves;
    for adapter in 0..=255u8 {
        left = sweep_row(words, drivers, Apid(adapter), left)?;
    }
    Some(left)
}

// The same for the queues of one adapter.
fn sweep_row(words: &Words, drivers: &mut Drivers, adapter: Apid, moves: u32) -> Option<u32>
    ensures { PartSweeps moves 256 (adapter.0 * 256) words.entry drivers.entry drivers.exit result }
{
    let row = TargetRow::of(words, adapter);
    let mut left = moves;
    for n in 0..=255u8 {
        let queue = Apqn {
            adapter,
            domain: Apqi(n),
        };
        let target = row.target(queue.domain);
        let due = due::due_by(drivers::driver(drivers, queue), target);
        if left < due {
            settle(words, drivers, queue, left);
            return None;
        }
        finish(drivers, queue, due, target);
        left -= due;
    }
    Some(left)
}

// Makes some moves of a queue.
#[tactic(auto, using(crate::proofs::Laws::no_moves, crate::proofs::Laws::moves_more))]
fn settle(words: &Words, drivers: &mut Drivers, queue: Apqn, moves: u32)
    ensures { drivers.new ≡ moves_bytes words.now moves (apqn queue.adapter queue.domain) drivers.old }
{
    for _ in 0..moves {
        bind::move_queue(words, drivers, queue);
    }
}

// Makes all moves that are due of a queue: the driver after the last is the target.
fn finish(drivers: &mut Drivers, queue: Apqn, due: u32, target: Driver)
    ensures { drivers.new ≡ finished_bytes due target (apqn queue.adapter queue.domain) drivers.old }
{
    if due != 0 {
        drivers::put_driver(drivers, queue, target);
    }
}
