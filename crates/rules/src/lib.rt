// The types of the assignment service, and what its answers are as numbers. Its rules are the definitions in specs/.
//
// Rests on errno, mask, number and masktext.
#![tactic(auto)]

ghost use Rattle.std.specs.Prelude.{◌≡◌};
ghost use Rattle.rules.specs.Queues.{moved_number};
ghost use Rattle.rules.specs.Commands.{answered};

use errno::Errno;
use mask::Mask;

// The number of queues: an adapter and a domain each.
pub const QUEUES: usize = 65536;

// The lowest hardware type whose queues are passed through to guests.
pub const LOWEST_PASSED_TYPE: u64 = 10;

// Who drives a queue: nobody, the host's own driver, or the driver that passes it through to guests.
#[derive(Clone, Copy, PartialEq, Eq)]
pub enum Driver {
    Unbound,
    Host,
    Passthrough,
}

// What a move of one queue did.
#[derive(Clone, Copy, PartialEq, Eq)]
pub enum Moved {
    Idle,
    Released,
    BoundHost,
    BoundPassthrough,
}

// The three kinds of number that are assigned to a mediated device.
#[derive(Clone, Copy, PartialEq, Eq)]
pub enum Kind {
    Adapter,
    Domain,
    Control,
}

// A device's two matrices: what is assigned to it, and what its guest gets.
#[derive(Clone, Copy, PartialEq, Eq)]
pub enum Matrix {
    Assigned,
    Guest,
}

// What a command answers: nothing but that it was done, or why it is refused.
pub type Answer = Result<(), Errno>;

// The 16 bytes of a mediated device's id, as two big-endian numbers.
#[derive(Clone, Copy, PartialEq, Eq)]
pub struct Id {
    pub hi: u64,
    pub lo: u64,
}

// What the partition is given: three masks, and for each adapter its hardware type.
#[derive(Clone, Copy)]
pub struct Configuration {
    pub adapters: Mask,
    pub domains: Mask,
    pub controls: Mask,
    pub types: [u8; 256],
}

// Adapters, domains and control domains of a matrix.
#[derive(Clone, Copy)]
pub struct Masks {
    pub adapters: Mask,
    pub domains: Mask,
    pub controls: Mask,
}

// An answer as its errno value, 0 where there is no refusal.
pub fn answer_number(answer: Answer) -> u8
    ensures { result ≡ answered answer }
{
    match answer {
        Ok(()) => 0,
        Err(e) => u8::from(e),
    }
}

// What a move did, as a number.
impl From<Moved> for u8 {
    ghost from_gives = { λ m n. n ≡ moved_number m };

    fn from(moved: Moved) -> u8 {
        match moved {
            Moved::Idle => 0,
            Moved::Released => 1,
            Moved::BoundHost => 2,
            Moved::BoundPassthrough => 3,
        }
    }
}
