// The C interface to names. include/zokormendu.h has the declarations.
//
// Rests on errno, names and movednames.
#![tactic(auto)]

ghost use Rattle.names.specs.Names.{NameShown};
ghost use Rattle.movednames.specs.Moves.{MovedShown};

use errno::NAME_BYTES;

// The name of an errno value, padded with zeros, and its length; of any other number nothing, and 0.
#[unsafe(no_mangle)]
pub extern "C" fn zk_raw_errno_name(value: u64, name: &mut [u8; NAME_BYTES]) -> usize
    ensures { NameShown value name.entry name.exit result }
{
    names::errno_name(value, name)
}

// What a move did as a word, likewise.
#[unsafe(no_mangle)]
pub extern "C" fn zk_raw_moved_name(value: u64, name: &mut [u8; NAME_BYTES]) -> usize
    ensures { MovedShown value name.entry name.exit result }
{
    movednames::moved_name(value, name)
}
