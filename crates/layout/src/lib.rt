// The record in memory that the caller lends: how large it is and where its parts lie, with the definitions by which it is read.
// `record` reads its words, `store` writes them, `drivers` does both with the driver bytes; no other crate's code sees where a part
// lies.
//
// Rests on errno, mask and rules.
#![tactic(auto)]

ghost use Rattle.std.specs.Prelude.{◌≡◌, min};
ghost use Rattle.mask.specs.Bits.{Small, Sized};
ghost use Rattle.rules.specs.State.{queues, slots};
ghost use Rattle.layout.specs.Layout.{word_count, device_at, kind_at};

use rules::{Kind, QUEUES};

// The number of slots for mediated devices.
pub const SLOTS: usize = 8;

// Where the parts lie: two limits, five masks of four words each, a hardware type for each of 256 adapters, the slots.
pub const MAX_ADAPTER: usize = 0;

pub const MAX_DOMAIN: usize = 1;

pub const APMASK: usize = 2;

pub const AQMASK: usize = 6;

pub const ADAPTERS: usize = 10;

pub const DOMAINS: usize = 14;

pub const CONTROLS: usize = 18;

pub const TYPES: usize = 22;

const FIRST_SLOT: usize = TYPES + 256;

// The words of a slot: whether a device is present, whether it is open, the two of its id, then three masks.
const SLOT_WORDS: usize = 16;

pub const PRESENT: usize = 0;

pub const OPEN: usize = 1;

pub const ID_HI: usize = 2;

pub const ID_LO: usize = 3;

// The number of words of a record.
pub const WORDS: usize = FIRST_SLOT + SLOTS * SLOT_WORDS;

pub type Words = [u64; WORDS];

// A byte for the driver of each queue.
pub type Drivers = [u8; QUEUES];

// That each item is a number of its type is known of a reference to a slice, and not of one to an array. These two do nothing but
// state it of an array.
pub fn hold_words(words: &Words)
    ensures { Sized 64 word_count words.now }
{
    small_words(words);
}

pub fn hold_drivers(drivers: &Drivers)
    ensures { Sized 8 queues drivers.now }
{
    small_bytes(drivers);
}

fn small_words(words: &[u64])
    ensures { Small 64 words.now }
{
    let _ = words;
}

fn small_bytes(bytes: &[u8])
    ensures { Small 8 bytes.now }
{
    let _ = bytes;
}

// Where a slot lies; where the words end, for one past the last.
pub fn slot_at(slot: usize) -> usize
    ensures { result ≡ device_at (min slot slots) }
{
    FIRST_SLOT + slot.min(SLOTS) * SLOT_WORDS
}

// Where the mask of a kind lies in a slot.
pub fn kind_at(kind: Kind) -> usize
    ensures { result ≡ kind_at kind }
{
    match kind {
        Kind::Adapter => 4,
        Kind::Domain => 8,
        Kind::Control => 12,
    }
}
