// Copies bytes into a buffer.
//
// Rests on nothing.
#![tactic(auto)]

ghost use Rattle.std.specs.Prelude.{◌≡◌, length};
ghost use Rattle.copy.specs.Copied.{copied};

// Copies bytes to an index of a buffer. Where they do not fit, nothing is written.
#[tactic(auto, unfolding(crate::specs::Copied::copied))]
pub fn copy(buf: &mut [u8], at: usize, bytes: &[u8])
    ensures { buf.new ≡ copied buf.old at bytes.now }
{
    if at <= buf.len() && bytes.len() <= buf.len() - at {
        fill(&mut buf[at..at + bytes.len()], bytes);
    }
}

// Copies bytes, one for each place. Of `copy_from_slice` the kit's compiler makes a call of memmove here where it doesn't know how
// many they are, which a caller in C need not have; and of a short array that was just written it reads words, which is slow.
fn fill(room: &mut [u8], bytes: &[u8])
    requires { length room.old ≡ length bytes.now }
    ensures { room.new ≡ bytes.now }
{
    for (i, to) in room.iter_mut().enumerate() {
        *to = bytes[i];
    }
}
