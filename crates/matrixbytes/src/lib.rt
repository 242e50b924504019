// A device's matrix as bytes, for a caller in C: three masks of 32 bytes.
//
// Rests on errno, copy, mask, maskbytes, rules, layout and guest.
#![tactic(auto)]

ghost use Rattle.std.specs.Prelude.{◌≡◌, ◌+◌, ◌≤◌, length};
ghost use Rattle.std.proofs.Math.Seq.{paste};
ghost use Rattle.mask.specs.Bits.{bits};
ghost use Rattle.layout.specs.Lent.{state};
ghost use Rattle.guest.specs.Masks.{Shows};
ghost use Rattle.matrixbytes.specs.Matrices.{mask_bytes, masks_bytes, MasksShown};

use layout::{Drivers, Words};
use mask::Mask;
use rules::{Id, Masks, Matrix};

// The bytes of a mask.
pub const MASK_BYTES: usize = 32;

// The bytes of three masks.
pub const MASKS_BYTES: usize = 3 * MASK_BYTES;

// The adapters, domains and control domains of a matrix.
pub fn masks(
    words: &Words,
    drivers: &Drivers,
    id: Id,
    matrix: Matrix,
    out: &mut [u8; MASKS_BYTES],
) -> u8
    ensures { MasksShown (Shows (state words.entry drivers.entry) id matrix) out.entry out.exit result }
{
    match guest::masks(words, drivers, id, matrix) {
        Ok(m) => {
            put_masks(m, out);
            0
        }
        Err(e) => u8::from(e),
    }
}

// Three masks, one after the other.
pub fn put_masks(masks: Masks, out: &mut [u8; MASKS_BYTES])
    ensures { out.new ≡ masks_bytes masks }
{
    put_mask(masks.adapters, out, 0);
    put_mask(masks.domains, out, MASK_BYTES);
    put_mask(masks.controls, out, 2 * MASK_BYTES);
}

// The bytes of a mask, from an index on.
fn put_mask(mask: Mask, out: &mut [u8], at: usize)
    requires { at + 32 ≤ length out.old }
    ensures { out.new ≡ paste out.old at (mask_bytes (bits mask)) 32 }
{
    let b = maskbytes::to_bytes(mask);
    copy::copy(out, at, &b);
}
