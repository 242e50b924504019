// A mask of 256 bits as one value, and the two kinds of number that name its bits.
//
// Rests on nothing. Bit 0 is the most significant bit of the first word.
#![tactic(auto)]

ghost use Rattle.std.specs.Prelude.{ℕ, ◌-◌, ◌%◌, ◌^◌, ◌≡◌};
ghost use Rattle.mask.specs.Bits.{bits, no_bits, all_bits, included, excluded};

// An adapter number. It is a kind of its own, as a domain number is: a function that takes the one cannot be given the other. What is
// asked of a mask takes either, since a mask may be of adapters or of domains.
#[derive(Clone, Copy, PartialEq, Eq)]
pub struct Apid(pub u8);

// A usage or control domain number.
#[derive(Clone, Copy, PartialEq, Eq)]
pub struct Apqi(pub u8);

// A queue: an adapter and a domain.
#[derive(Clone, Copy, PartialEq, Eq)]
pub struct Apqn {
    pub adapter: Apid,
    pub domain: Apqi,
}

impl Apqn {
    // The queue of an adapter's number and a domain's.
    pub fn new(apid: u8, apqi: u8) -> Apqn
        ensures adapter { result.adapter.0 ≡ apid }
        ensures domain { result.domain.0 ≡ apqi }
    {
        Apqn {
            adapter: Apid(apid),
            domain: Apqi(apqi),
        }
    }
}

// A kind of number that names the bits of masks.
pub trait BitNumber {
    ghost bit: { Self → ℕ };

    fn bit(self) -> u8
        ensures { result ≡ bit self };
}

impl BitNumber for u8 {
    ghost bit = { λ n. n };

    fn bit(self) -> u8 {
        self
    }
}

impl BitNumber for Apid {
    ghost bit = { λ n. n.0 };

    fn bit(self) -> u8 {
        self.0
    }
}

impl BitNumber for Apqi {
    ghost bit = { λ n. n.0 };

    fn bit(self) -> u8 {
        self.0
    }
}

#[derive(Clone, Copy, PartialEq, Eq)]
pub struct Mask {
    pub words: [u64; 4],
}

impl Mask {
    pub fn empty() -> Mask
        ensures { bits result ≡ no_bits }
    {
        Mask { words: [0; 4] }
    }

    pub fn full() -> Mask
        ensures { bits result ≡ all_bits }
    {
        Mask {
            words: [u64::MAX; 4],
        }
    }

    // Whether a number is in it.
    pub fn has<N: BitNumber>(self, number: N) -> bool
        ensures { result ≡ bits self (N.bit number) }
    {
        let i = number.bit();
        (self.words[usize::from(i / 64)] >> (63 - i % 64)) % 2 == 1
    }

    pub fn with<N: BitNumber>(mut self, number: N) -> Mask
        ensures { bits result ≡ included (N.bit number) (bits self) }
    {
        let i = number.bit();
        self.words[usize::from(i / 64)] |= bit_of(i);
        self
    }

    pub fn without<N: BitNumber>(mut self, number: N) -> Mask
        ensures { bits result ≡ excluded (N.bit number) (bits self) }
    {
        let i = number.bit();
        self.words[usize::from(i / 64)] &= !bit_of(i);
        self
    }
}

// The bit with a number, in its word.
fn bit_of(i: u8) -> u64
    ensures { result ≡ 2 ^ (63 - i % 64) }
{
    1 << (63 - i % 64)
}
