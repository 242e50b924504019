// Assigning adapters, domains and control domains to a device by number, and taking them away.
//
// Rests on errno, mask, rules, product, layout, record, store, lookup and admit.
#![tactic(auto)]

ghost use Rattle.std.specs.Prelude.{◌<◌, ◌≡◌};
ghost use Rattle.rules.specs.State.{slots};
ghost use Rattle.rules.specs.Commands.{assign_at, unassign_at};
ghost use Rattle.layout.specs.Carried.{Obeys};
ghost use Rattle.assignnumber.specs.Numbers.{AssignsNumber, UnassignsNumber, assigned_at, unassigned_at, located_of};

use errno::Errno;
use layout::Words;
use rules::{Answer, Id, Kind};

// Assigns a number.
pub fn assign(words: &mut Words, kind: Kind, id: Id, number: u64) -> Answer
    ensures { AssignsNumber kind id number words.entry words.exit result }
{
    let (slot, n) = locate(words, kind, id, number)?;
    assign_at(words, kind, slot, n)
}

// Takes away a number.
pub fn unassign(words: &mut Words, kind: Kind, id: Id, number: u64) -> Answer
    ensures { UnassignsNumber kind id number words.entry words.exit result }
{
    let (slot, n) = locate(words, kind, id, number)?;
    unassign_at(words, kind, slot, n)
}

// Where a number goes: the slot of the device with an id, and the number, which is in range.
fn locate(words: &Words, kind: Kind, id: Id, number: u64) -> Result<(usize, u8), Errno>
    ensures { result ≡ located_of kind id number words.entry }
{
    let slot = lookup::find(words, id).ok_or(Errno::Enoent)?;
    if !admit::in_range(words, kind, number) {
        return Err(Errno::Enodev);
    }
    Ok((slot, number as u8))
}

// Assigns a number that is in range to the device at a slot.
fn assign_at(words: &mut Words, kind: Kind, slot: usize, number: u8) -> Answer
    requires { slot < slots }
    ensures { Obeys (assign_at kind number slot) (assigned_at kind slot number) words.entry words.exit result }
{
    layout::hold_words(words);
    let m = record::numbers(words, slot, kind);
    if m.has(number) {
        return Ok(());
    }
    let wanted = admit::paired(words, kind, slot, number);
    admit::admitted(words, slot, wanted)?;
    store::put_numbers(words, slot, kind, m.with(number));
    Ok(())
}

// Takes away a number that is in range from the device at a slot.
fn unassign_at(words: &mut Words, kind: Kind, slot: usize, number: u8) -> Answer
    requires { slot < slots }
    ensures { Obeys (unassign_at kind number slot) (unassigned_at kind slot number) words.entry words.exit result }
{
    layout::hold_words(words);
    let m = record::numbers(words, slot, kind);
    store::put_numbers(words, slot, kind, m.without(number));
    Ok(())
}
