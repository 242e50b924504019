// Creating a mediated device.
//
// Rests on errno, rules, layout, store and lookup.
#![tactic(auto)]

ghost use Rattle.rules.specs.Commands.{create};
ghost use Rattle.layout.specs.Carried.{Obeys};
ghost use Rattle.create.specs.Created.{created};

use errno::Errno;
use layout::Words;
use rules::{Answer, Id};

pub fn create(words: &mut Words, id: Id) -> Answer
    ensures { Obeys (create id) (created id) words.entry words.exit result }
{
    if lookup::find(words, id).is_some() {
        return Err(Errno::Eexist);
    }
    let slot = lookup::free(words).ok_or(Errno::Enospc)?;
    layout::hold_words(words);
    store::put_device(words, slot, true, id);
    Ok(())
}
