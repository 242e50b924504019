// Lists a device's matrix as text, part by part.
//
// Rests on mask, errno, masks, rules, layout, product, lines, lookup and matrix.
#![tactic(auto)]

ghost use Rattle.std.specs.Prelude.{◌≡◌, length};
ghost use Rattle.mask.specs.Bits.{bits};
ghost use Rattle.rules.specs.State.{in_product};
ghost use Rattle.layout.specs.Lent.{state};
ghost use Rattle.lines.specs.Lines.{queues_at};
ghost use Rattle.listing.specs.Listed.{Listing};

use errno::Errno;
use layout::{Drivers, Words};
use lines::{Filled, LINE};
use product::Product;
use rules::{Id, Masks, Matrix};

// Writes the lines of the queues at or after a place, as many whole lines as fit into the buffer.
pub fn list(
    words: &Words,
    drivers: &Drivers,
    id: Id,
    matrix: Matrix,
    place: usize,
    buf: &mut [u8],
) -> Result<Filled, Errno>
    ensures { Listing (state words.entry drivers.entry) id matrix place buf.old buf.new result }
{
    let slot = lookup::find(words, id).ok_or(Errno::Enoent)?;
    if buf.len() < LINE {
        return Err(Errno::Enospc);
    }
    let m = matrix::masks_at(words, drivers, slot, matrix);
    Ok(lines::write(Product::from(m), place, buf))
}

// How many lines a whole matrix has.
pub fn lines(masks: Masks) -> u32
    ensures { result ≡ length (queues_at 0 (in_product (bits masks.adapters) (bits masks.domains))) }
{
    masks::count(masks.adapters) * masks::count(masks.domains)
}
