// What a caller in C is shown: answers with what they leave behind references. A refused call leaves what was there.
//
// Rests on errno, rules, layout, lines, sweep and listing.
#![tactic(auto)]

ghost use Rattle.std.specs.Prelude.{◌≡◌};
ghost use Rattle.layout.specs.Lent.{state};
ghost use Rattle.sweep.specs.Sweeps.{Sweeps};
ghost use Rattle.listing.specs.Listed.{Listing};
ghost use Rattle.shown.specs.Shown.{bit};
ghost use Rattle.shown.specs.Shown.{SweepShown, ListShown};

use layout::{Drivers, Words};
use rules::{Id, Matrix};

// Makes a sweep and answers the moves used; more is then 1 where any remain, and 0 where none does.
pub fn sweep(words: &Words, drivers: &mut Drivers, budget: u32, more: &mut u8) -> u32
    ensures { SweepShown (Sweeps budget words.entry drivers.entry drivers.exit) more.exit result }
{
    let r = sweep::sweep(words, drivers, budget);
    *more = u8::from(r.more);
    r.used
}

// Writes lines from a place on; the bytes written and the next place are left behind the last two references.
pub fn list(
    words: &Words,
    drivers: &Drivers,
    id: Id,
    matrix: Matrix,
    place: usize,
    buf: &mut [u8],
    written: &mut usize,
    next: &mut usize,
) -> u8
    ensures { ListShown (Listing (state words.entry drivers.entry) id matrix place
        buf.old buf.new) written.entry written.exit next.entry next.exit result }
{
    match listing::list(words, drivers, id, matrix, place, buf) {
        Ok(filled) => {
            *written = filled.written;
            *next = filled.next;
            0
        }
        Err(e) => u8::from(e),
    }
}
