// What is done with whole masks: and, or, minus, whether any bit is set, whether two meet, how many bits there are.
//
// Rests on mask.
#![tactic(auto)]

ghost use Rattle.std.specs.Prelude.{not, ◌&&◌, ◌≡◌};
ghost use Rattle.mask.specs.Bits.{bits, both, either, some_below, count_below};

use mask::Mask;

pub fn and(one: Mask, other: Mask) -> Mask
    ensures { bits result ≡ both (bits one) (bits other) }
{
    let x = one.words;
    let y = other.words;
    Mask {
        words: [x[0] & y[0], x[1] & y[1], x[2] & y[2], x[3] & y[3]],
    }
}

pub fn or(one: Mask, other: Mask) -> Mask
    ensures { bits result ≡ either (bits one) (bits other) }
{
    let x = one.words;
    let y = other.words;
    Mask {
        words: [x[0] | y[0], x[1] | y[1], x[2] | y[2], x[3] | y[3]],
    }
}

// The bits of one mask that the other has not.
pub fn minus(one: Mask, other: Mask) -> Mask
    ensures { bits result ≡ (λ i. bits one i && not (bits other i)) }
{
    let x = one.words;
    let y = other.words;
    Mask {
        words: [x[0] & !y[0], x[1] & !y[1], x[2] & !y[2], x[3] & !y[3]],
    }
}

// Whether any bit is set.
pub fn any(mask: Mask) -> bool
    ensures { result ≡ some_below 256 (bits mask) }
{
    let x = mask.words;
    (x[0] | x[1] | x[2] | x[3]) != 0
}

// Whether some bit is in both.
pub fn meets(one: Mask, other: Mask) -> bool
    ensures { result ≡ some_below 256 (both (bits one) (bits other)) }
{
    any(and(one, other))
}

// How many bits are set.
pub fn count(mask: Mask) -> u32
    ensures { result ≡ count_below 256 (bits mask) }
{
    let x = mask.words;
    x[0].count_ones() + x[1].count_ones() + x[2].count_ones() + x[3].count_ones()
}
