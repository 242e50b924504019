// The life of a mediated device once it is created: remove, open, close.
//
// Rests on errno, rules, layout, record, store and lookup.
#![tactic(auto)]

ghost use Rattle.std.specs.Prelude.{◌≡◌};
ghost use Rattle.rules.specs.Commands.{remove, open_device, close_device};
ghost use Rattle.layout.specs.Lent.{devices};
ghost use Rattle.layout.specs.Carried.{Obeys};
ghost use Rattle.devices.specs.Effects.{removed, opened, closed, slot_if};

use errno::Errno;
use layout::Words;
use rules::{Answer, Id};

pub fn remove(words: &mut Words, id: Id) -> Answer
    ensures { Obeys (remove id) (removed id) words.entry words.exit result }
{
    layout::hold_words(words);
    let freed = slot_if(words, id, false)?;
    store::put_device(words, freed, false, Id { hi: 0, lo: 0 });
    Ok(())
}

pub fn open(words: &mut Words, id: Id) -> Answer
    ensures { Obeys (open_device id) (opened id) words.entry words.exit result }
{
    layout::hold_words(words);
    let slot = slot_if(words, id, false)?;
    store::put_open(words, slot, true);
    Ok(())
}

pub fn close(words: &mut Words, id: Id) -> Answer
    ensures { Obeys (close_device id) (closed id) words.entry words.exit result }
{
    layout::hold_words(words);
    let slot = slot_if(words, id, true)?;
    store::put_open(words, slot, false);
    Ok(())
}

// The slot of the device with an id, if it is open, or not, as wanted. Otherwise an open one is busy, and of another EINVAL is said.
fn slot_if(words: &Words, id: Id, wanted: bool) -> Result<usize, Errno>
    ensures { result ≡ slot_if id wanted (devices words.entry) }
{
    let slot = lookup::find(words, id).ok_or(Errno::Enoent)?;
    if record::is_open(words, slot) != wanted {
        return Err(if wanted { Errno::Einval } else { Errno::Ebusy });
    }
    Ok(slot)
}
