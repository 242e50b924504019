// A number in decimal.
//
// Rests on nothing.
#![tactic(auto)]

ghost use Rattle.std.specs.Prelude.{◌≡◌, ◌+◌, ◌%◌, ◌++◌, length, replicate};
ghost use Rattle.decimal.specs.Decimal.{decimal, most};

// The most digits of a number of 32 bits.
pub const DIGITS: usize = 10;

// The digits of a number stand at the end: from an index on; before them zeros.
#[derive(Clone, Copy)]
pub struct Decimal {
    pub bytes: [u8; DIGITS],
    pub from: usize,
}

// The digits of a number, the highest one first, with no zeros in front.
pub fn write(n: u32) -> Decimal
    ensures { (result.bytes ≡ replicate result.from 0 ++ decimal n) × (result.from + length (decimal n) ≡ most) }
{
    let mut bytes = [0u8; DIGITS];
    let mut from = DIGITS - 1;
    let mut rest = n;
    bytes[from] = digit(rest);
    while 10 <= rest {
        rest /= 10;
        from -= 1;
        bytes[from] = digit(rest);
    }
    Decimal { bytes, from }
}

// The last digit of a number.
fn digit(n: u32) -> u8
    ensures { result ≡ 48 + n % 10 }
{
    b'0' + (n % 10) as u8
}
