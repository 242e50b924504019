// The 16 bytes of an id.
//
// Rests on rules, fields and rows.
#![tactic(auto)]

ghost use Rattle.idbytes.specs.IdBytes.{AsBytes};

use fields::ID_BYTES;
use rules::Id;

// The bytes of an id, from which `fields::id_of` reads it.
pub fn to_bytes(id: Id) -> [u8; ID_BYTES]
    ensures { AsBytes id result }
{
    let mut out = [0; ID_BYTES];
    out[..8].copy_from_slice(&id.hi.to_be_bytes());
    out[8..].copy_from_slice(&id.lo.to_be_bytes());
    out
}
