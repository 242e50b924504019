// Masks against limits: whether a bit above the highest number is set.
//
// Rests on mask and masks.
#![tactic(auto)]

ghost use Rattle.std.specs.Prelude.{◌-◌, ◌^◌, cond, ◌≡◌, ltb, eqb};
ghost use Rattle.mask.specs.Bits.{bits, bits_above, both, some_below};

use mask::{BitNumber, Mask};

// Whether a number above a limit is in a mask.
pub fn exceeds<N: BitNumber>(mask: Mask, limit: N) -> bool
    ensures { result ≡ some_below 256 (both (bits mask) (bits_above (N.bit limit))) }
{
    masks::meets(mask, beyond(limit.bit()))
}

// The bits above a limit.
fn beyond(limit: u8) -> Mask
    ensures { bits result ≡ bits_above limit }
{
    let k = limit / 64;
    let part = (1u64 << (63 - limit % 64)) - 1;
    Mask {
        words: [
            beyond_word(k, 0, part),
            beyond_word(k, 1, part),
            beyond_word(k, 2, part),
            beyond_word(k, 3, part),
        ],
    }
}

// Word j of the bits above a limit that lies in word k, where part is that word.
fn beyond_word(k: u8, j: u8, part: u64) -> u64
    ensures { result ≡ cond (ltb k j) (2 ^ 64 - 1) (cond (eqb k j) part 0) }
{
    if k < j {
        u64::MAX
    } else if k == j {
        part
    } else {
        0
    }
}
