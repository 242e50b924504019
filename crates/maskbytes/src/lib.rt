// A mask as 32 bytes in mask order, and as hex digits.
//
// Rests on mask.
#![tactic(auto)]

ghost use Rattle.std.specs.Prelude.{◌≡◌, ◌+◌, ◌-◌, ◌*◌, ◌/◌, ◌%◌, ◌^◌, ◌<◌};
ghost use Rattle.mask.specs.Bits.{bits, bit_at, either, group, number, numbers};

use mask::Mask;

// With the bits of one group of four also set as in the number v: group 0 is bits 0 to 3.
pub fn with_nibble(mut m: Mask, g: u8, v: u8) -> Mask
    ensures { bits result ≡ either (bits m) (group 4 (g % 64) (v % 16)) }
{
    m.words[usize::from(g % 64 / 16)] |= u64::from(v % 16) << (60 - 4 * (g % 16));
    m
}

// The 32 bytes of a mask.
pub fn to_bytes(m: Mask) -> [u8; 32]
    ensures { result ≡ numbers 8 32 (bits m) 0 }
{
    let mut out = [0; 32];
    for (q, word) in m.words.iter().enumerate() {
        out[8 * q..8 * q + 8].copy_from_slice(&word.to_be_bytes());
    }
    out
}

// The mask that has these 32 bytes.
pub fn from_bytes(b: [u8; 32]) -> Mask
    ensures { bits result ≡ bit_at 8 b }
{
    Mask {
        words: [word_of(b, 0), word_of(b, 1), word_of(b, 2), word_of(b, 3)],
    }
}

// Word q of a mask, from its eight bytes.
fn word_of(b: [u8; 32], q: usize) -> u64
    requires { q < 4 }
    ensures { result ≡ number 64 (bit_at 8 b) (q * 64) }
{
    let i = 8 * q;
    u64::from_be_bytes([
        b[i],
        b[i + 1],
        b[i + 2],
        b[i + 3],
        b[i + 4],
        b[i + 5],
        b[i + 6],
        b[i + 7],
    ])
}
