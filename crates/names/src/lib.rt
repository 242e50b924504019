// The name of an errno value, for a caller that has the number.
//
// Rests on errno.
#![tactic(auto)]

ghost use Rattle.std.specs.Prelude.{◌≡◌, min, length, take, get_or};
ghost use Rattle.errno.specs.Errno.{padded};
ghost use Rattle.names.specs.Names.{CaseOf, NameShown};

use errno::{Errno, NAME_BYTES};

// The name of an errno value, padded with zeros, and its length; of any other number nothing, and 0.
pub fn errno_name(value: u64, out: &mut [u8; NAME_BYTES]) -> usize
    ensures { NameShown value out.entry out.exit result }
{
    match errno_of(value) {
        Some(e) => write(errno::name(e), out),
        None => 0,
    }
}

// Writes a name and zeros after it, and gives its length. A name that is too long for the buffer is cut off.
pub fn write(name: &[u8], out: &mut [u8; NAME_BYTES]) -> usize
    ensures { (result ≡ min (length name.now) NAME_BYTES) × (out.new ≡ padded (take NAME_BYTES name.now)) }
{
    // Byte by byte: of `copy_from_slice` the kit's compiler makes a call of memmove here, which the archive is not to need.
    for (i, to) in out.iter_mut().enumerate() {
        *to = byte_at(name, i);
    }
    name.len().min(NAME_BYTES)
}

// The byte of a name at an index, or 0 past its end.
fn byte_at(name: &[u8], i: usize) -> u8
    ensures { result ≡ get_or name.now i 0 }
{
    name.get(i).copied().unwrap_or(0)
}

// The case with an errno value.
#[tactic(auto, unfolding(errno::specs::Errno::number_of))]
fn errno_of(value: u64) -> Option<Errno>
    ensures { CaseOf value result }
{
    match value {
        2 => Some(Errno::Enoent),
        16 => Some(Errno::Ebusy),
        17 => Some(Errno::Eexist),
        19 => Some(Errno::Enodev),
        22 => Some(Errno::Einval),
        28 => Some(Errno::Enospc),
        98 => Some(Errno::Eaddrinuse),
        99 => Some(Errno::Eaddrnotavail),
        _ => None,
    }
}
