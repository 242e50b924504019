// An id, a kind of number and a configuration, read from bytes. Missing bytes are zeros.
//
// Rests on mask, maskbytes and rules.
#![tactic(auto)]

ghost use Rattle.std.specs.Prelude.{◌≡◌, ◌+◌, ◌*◌, ◌<◌, ◌≤◌, get_or};
ghost use Rattle.fields.specs.Fields.{half_at, word_at, id_of, kind_of, mask_of, bytes_at, configuration_of};

use mask::Mask;
use rules::{Configuration, Id, Kind};

// The bytes of an id.
pub const ID_BYTES: usize = 16;

// The bytes of a configuration: three masks of 32, then 256 hardware types.
pub const CONFIGURATION_BYTES: usize = 352;

// The number of the first four bytes, big-endian.
pub fn number_of(bytes: &[u8]) -> u32
    ensures { result ≡ half_at bytes.now 0 }
{
    half_at(bytes, 0)
}

// The id of the first sixteen bytes.
pub fn id_of(bytes: &[u8]) -> Id
    ensures { result ≡ id_of bytes.now }
{
    Id {
        hi: word_at(bytes, 0),
        lo: word_at(bytes, 8),
    }
}

// The kind of number of a byte.
pub fn kind_of(n: u8) -> Kind
    ensures { result ≡ kind_of n }
{
    match n {
        0 => Kind::Adapter,
        1 => Kind::Domain,
        _ => Kind::Control,
    }
}

// The configuration of three masks of 32 bytes and 256 types.
pub fn configuration_of(bytes: &[u8]) -> Configuration
    ensures { result ≡ configuration_of bytes.now }
{
    Configuration {
        adapters: mask_of(bytes, 0),
        domains: mask_of(bytes, 32),
        controls: mask_of(bytes, 64),
        types: bytes_at(bytes, 96),
    }
}

fn word_at(bytes: &[u8], at: usize) -> u64
    requires { at ≤ 8 }
    ensures { result ≡ word_at bytes.now at }
{
    u64::from(half_at(bytes, at)) * 4294967296 + u64::from(half_at(bytes, at + 4))
}

fn half_at(bytes: &[u8], at: usize) -> u32
    requires { at ≤ 12 }
    ensures { result ≡ half_at bytes.now at }
{
    // One test where all four are there.
    if at + 3 < bytes.len() {
        return u32::from_be_bytes([bytes[at], bytes[at + 1], bytes[at + 2], bytes[at + 3]]);
    }
    u32::from_be_bytes([
        byte_at(bytes, at),
        byte_at(bytes, at + 1),
        byte_at(bytes, at + 2),
        byte_at(bytes, at + 3),
    ])
}

// The byte at an index, or 0 past the end.
fn byte_at(bytes: &[u8], i: usize) -> u8
    ensures { result ≡ get_or bytes.now i 0 }
{
    bytes.get(i).copied().unwrap_or(0)
}

fn mask_of(bytes: &[u8], at: usize) -> Mask
    requires { at ≤ 64 }
    ensures { result ≡ mask_of bytes.now at }
{
    maskbytes::from_bytes(bytes_at(bytes, at))
}

// The bytes from an index on.
fn bytes_at<const N: usize>(bytes: &[u8], at: usize) -> [u8; N]
    requires { at + N ≤ 352 }
    ensures { result ≡ bytes_at bytes.now at N }
{
    let there = bytes.get(at..).unwrap_or(&[]);
    let n = there.len().min(N);
    let mut out = [0; N];
    out[..n].copy_from_slice(&there[..n]);
    out
}
