// The C interface to queues: moves and sweeps, drivers and targets, and what a guest can use. include/zokormendu.h has the
// declarations.
//
// Rests on mask, rules, fields, layout, guest, due, drivernumbers, request, shown and served.
#![tactic(auto)]

ghost use Rattle.std.specs.Prelude.{◌≡◌};
ghost use Rattle.rules.specs.State.{apqn};
ghost use Rattle.rules.specs.Queues.{target};
ghost use Rattle.layout.specs.Lent.{state};
ghost use Rattle.due.specs.Due.{Remains};
ghost use Rattle.guest.specs.Masks.{usable_with};
ghost use Rattle.drivernumbers.specs.Numbers.{driver_number};
ghost use Rattle.shown.specs.Shown.{bit};
ghost use Rattle.served.specs.Served.{id_in, queue_with, MoveServes, SweepServes};

use fields::ID_BYTES;
use layout::{Drivers, Words};
use mask::Apqn;

// 0 idle, 1 released, 2 bound to host, 3 bound to passthrough.
#[unsafe(no_mangle)]
pub extern "C" fn zk_raw_move(words: &Words, drivers: &mut Drivers, apid: u8, apqi: u8) -> u8
    ensures { MoveServes apid apqi words.entry drivers result }
{
    request::make_move(words, drivers, Apqn::new(apid, apqi))
}

// The moves used; more is then 1 where any remain, and 0 where none does.
#[unsafe(no_mangle)]
pub extern "C" fn zk_raw_sweep(
    words: &Words,
    drivers: &mut Drivers,
    budget: u32,
    more: &mut u8,
) -> u32
    ensures { SweepServes budget words.entry drivers more.exit result }
{
    shown::sweep(words, drivers, budget, more)
}

#[unsafe(no_mangle)]
pub extern "C" fn zk_raw_remaining(words: &Words, drivers: &Drivers) -> u32
    ensures { Remains words.entry drivers.entry result }
{
    due::remaining(words, drivers)
}

// 0 unbound, 1 host, 2 passthrough.
#[tactic(auto, unfolding(layout::specs::Layout::state_in))]
#[unsafe(no_mangle)]
pub extern "C" fn zk_raw_driver(words: &Words, drivers: &Drivers, apid: u8, apqi: u8) -> u8
    ensures { result ≡ driver_number ((state words.entry drivers.entry).driver (queue_with apid apqi)) }
{
    drivernumbers::driver(drivers, Apqn::new(apid, apqi))
}

#[tactic(auto, unfolding(layout::specs::Layout::state_in))]
#[unsafe(no_mangle)]
pub extern "C" fn zk_raw_target(words: &Words, drivers: &Drivers, apid: u8, apqi: u8) -> u8
    ensures { result ≡ driver_number (target (state words.entry drivers.entry) (queue_with apid apqi)) }
{
    drivernumbers::target(words, Apqn::new(apid, apqi))
}

// 1 where the guest of the device can use the queue now, else 0.
#[unsafe(no_mangle)]
pub extern "C" fn zk_raw_usable(
    words: &Words,
    drivers: &Drivers,
    id: &[u8; ID_BYTES],
    apid: u8,
    apqi: u8,
) -> u8
    ensures { result ≡ bit (usable_with (id_in id.entry) (state words.entry drivers.entry) (queue_with apid apqi)) }
{
    let id = fields::id_of(id);
    u8::from(guest::usable(words, drivers, id, Apqn::new(apid, apqi)))
}
