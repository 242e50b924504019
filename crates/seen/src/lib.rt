// What there is to see of devices: which one is in a slot, and which one has a queue. Their ids are left as bytes.
//
// Rests on errno, mask, rules, fields, layout, record, holder, idbytes and shown.
#![tactic(auto)]

ghost use Rattle.rules.specs.State.{apqn};
ghost use Rattle.layout.specs.Lent.{devices};
ghost use Rattle.seen.specs.Seen.{DeviceShown, HolderShown};

use errno::Errno;
use fields::ID_BYTES;
use layout::Words;
use mask::Apqn;

// Leaves the id of the device in a slot, and 1 or 0 for whether it is open.
pub fn device(words: &Words, slot: usize, id: &mut [u8; ID_BYTES], mark: &mut u8) -> u8
    ensures { DeviceShown (devices words.entry slot) id.entry id.exit mark.entry mark.exit result }
{
    if !record::present(words, slot) {
        return u8::from(Errno::Enoent);
    }
    *id = idbytes::to_bytes(record::id(words, slot));
    *mark = u8::from(record::is_open(words, slot));
    0
}

// Leaves the id of the device that has a queue.
pub fn holder(words: &Words, queue: Apqn, id: &mut [u8; ID_BYTES]) -> u8
    ensures { HolderShown (devices words.entry) (apqn queue.adapter queue.domain) id.entry id.exit result }
{
    match holder::holder(words, queue) {
        None => u8::from(Errno::Enoent),
        Some(slot) => {
            *id = idbytes::to_bytes(record::id(words, slot));
            0
        }
    }
}
