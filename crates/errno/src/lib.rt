// The eight errno values of the assignment service, with their names, as one constant table.
//
// Rests on nothing. Crates that refuse say why by an `Errno`.
#![tactic(auto)]

ghost use Rattle.std.specs.Prelude.{◌≡◌};
ghost use Rattle.errno.specs.Errno.{number_of, name_of};

// Why a request is refused.
#[derive(Clone, Copy, PartialEq, Eq)]
pub enum Errno {
    Enoent,
    Ebusy,
    Eexist,
    Enodev,
    Einval,
    Enospc,
    Eaddrinuse,
    Eaddrnotavail,
}

// The bytes of a name that is padded with zeros.
pub const NAME_BYTES: usize = 14;

// A value and its name.
#[derive(Clone, Copy)]
struct Entry {
    number: u8,
    name: &'static [u8],
}

// By ascending number, in the order of the cases.
const TABLE: [Entry; 8] = [
    Entry {
        number: 2,
        name: b"ENOENT",
    },
    Entry {
        number: 16,
        name: b"EBUSY",
    },
    Entry {
        number: 17,
        name: b"EEXIST",
    },
    Entry {
        number: 19,
        name: b"ENODEV",
    },
    Entry {
        number: 22,
        name: b"EINVAL",
    },
    Entry {
        number: 28,
        name: b"ENOSPC",
    },
    Entry {
        number: 98,
        name: b"EADDRINUSE",
    },
    Entry {
        number: 99,
        name: b"EADDRNOTAVAIL",
    },
];

// The errno value of a case, as a hypervisor returns it.
impl From<Errno> for u8 {
    ghost from_gives = { λ e n. n ≡ number_of e };

    #[tactic(auto, unfolding(crate::specs::Errno::number_of))]
    fn from(e: Errno) -> u8 {
        TABLE[e as usize].number
    }
}

// The name of a case, as an answer line shows it, in ASCII.
#[tactic(auto, unfolding(crate::specs::Errno::name_of, crate::specs::Ascii::ascii))]
pub fn name(e: Errno) -> &'static [u8]
    ensures { result.now ≡ name_of e }
{
    TABLE[e as usize].name
}
