// The C interface to a device's matrix and guest_matrix, as masks and as text. include/zokormendu.h has the declarations.
//
// Rests on rules, fields, layout, guest, listing, matrixbytes, shown and served.
#![tactic(auto)]

ghost use Rattle.rules.specs.declared.Matrix.TheVariants.{Assigned, Guest};
ghost use Rattle.layout.specs.Lent.{state};
ghost use Rattle.guest.specs.Masks.{Shows};
ghost use Rattle.listing.specs.Listed.{Listing};
ghost use Rattle.matrixbytes.specs.Matrices.{MasksShown};
ghost use Rattle.shown.specs.Shown.{ListShown};
ghost use Rattle.served.specs.Served.{id_in};

use fields::ID_BYTES;
use layout::{Drivers, Words};
use matrixbytes::MASKS_BYTES;
use rules::Matrix;

// Adapters, domains and control domains, 32 bytes each.
#[unsafe(no_mangle)]
pub extern "C" fn zk_raw_matrix_masks(
    words: &Words,
    drivers: &Drivers,
    id: &[u8; ID_BYTES],
    masks: &mut [u8; MASKS_BYTES],
) -> u8
    ensures { MasksShown (Shows (state words.entry drivers.entry) (id_in id.entry) Assigned)
        masks.entry masks.exit result }
{
    matrixbytes::masks(words, drivers, fields::id_of(id), Matrix::Assigned, masks)
}

#[unsafe(no_mangle)]
pub extern "C" fn zk_raw_guest_matrix_masks(
    words: &Words,
    drivers: &Drivers,
    id: &[u8; ID_BYTES],
    masks: &mut [u8; MASKS_BYTES],
) -> u8
    ensures { MasksShown (Shows (state words.entry drivers.entry) (id_in id.entry) Guest)
        masks.entry masks.exit result }
{
    matrixbytes::masks(words, drivers, fields::id_of(id), Matrix::Guest, masks)
}

// Lines from a place on; the bytes written and the next place are left behind the last two references.
#[unsafe(no_mangle)]
pub extern "C" fn zk_raw_matrix(
    words: &Words,
    drivers: &Drivers,
    id: &[u8; ID_BYTES],
    place: usize,
    buf: &mut [u8],
    written: &mut usize,
    next: &mut usize,
) -> u8
    ensures { ListShown (Listing (state words.entry drivers.entry) (id_in id.entry) Assigned place
        buf.old buf.new) written.entry written.exit next.entry next.exit result }
{
    shown::list(
        words,
        drivers,
        fields::id_of(id),
        Matrix::Assigned,
        place,
        buf,
        written,
        next,
    )
}

#[unsafe(no_mangle)]
pub extern "C" fn zk_raw_guest_matrix(
    words: &Words,
    drivers: &Drivers,
    id: &[u8; ID_BYTES],
    place: usize,
    buf: &mut [u8],
    written: &mut usize,
    next: &mut usize,
) -> u8
    ensures { ListShown (Listing (state words.entry drivers.entry) (id_in id.entry) Guest place
        buf.old buf.new) written.entry written.exit next.entry next.exit result }
{
    shown::list(
        words,
        drivers,
        fields::id_of(id),
        Matrix::Guest,
        place,
        buf,
        written,
        next,
    )
}
