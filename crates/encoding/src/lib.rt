// A list of commands, moves and sweeps as bytes: where one step ends, and the command of an operation.
//
// Rests on rules, fields and model.
#![tactic(auto)]

ghost use Rattle.std.specs.Prelude.{◌≡◌, cond, drop, Some, None};
ghost use Rattle.encoding.specs.Encoding.{size_of, whole, command_of};
ghost use Rattle.encoding.specs.Meant.{meant};

use rules::{Id, Kind};

// The bytes of a step's header.
pub const HEADER: usize = 20;

// Where a header has the length of the payload: two bytes, big-endian.
const LENGTH: usize = 18;

// A command, with its text lent; a configuration is lent as its bytes.
#[derive(Clone, Copy)]
pub enum Command<'a> {
    Create(Id),
    Remove(Id),
    Open(Id),
    Close(Id),
    Assign(Kind, Id, &'a [u8]),
    Unassign(Kind, Id, &'a [u8]),
    SetApmask(&'a [u8]),
    SetAqmask(&'a [u8]),
    Configure(&'a [u8]),
}

// The command of an operation.
pub fn command_of<'a>(op: u8, kind: Kind, id: Id, text: &'a [u8]) -> Command<'a>
    ensures { meant result ≡ command_of op kind id text.now }
{
    match op {
        0 => Command::Create(id),
        1 => Command::Remove(id),
        2 => Command::Open(id),
        3 => Command::Close(id),
        4 => Command::Assign(kind, id, text),
        5 => Command::Unassign(kind, id, text),
        6 => Command::SetApmask(text),
        7 => Command::SetAqmask(text),
        _ => Command::Configure(text),
    }
}

// The size of the step at an index, where a whole step is left.
pub fn size_at(bytes: &[u8], at: usize) -> Option<usize>
    ensures { result ≡ cond (whole (drop at bytes.now)) (Some (size_of (drop at bytes.now))) None }
{
    let left = bytes.get(at..)?;
    if left.len() < HEADER {
        return None;
    }
    let length = u16::from_be_bytes([left[LENGTH], left[LENGTH + 1]]);
    let size = HEADER + usize::from(length);
    if left.len() < size { None } else { Some(size) }
}
