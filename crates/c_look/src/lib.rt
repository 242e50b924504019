// The C interface to what there is to see of devices: which one is in a slot or has a queue, and its assigned control domains.
// include/zokormendu.h has the declarations.
//
// Rests on mask, fields, layout, controllist, seen and served.
#![tactic(auto)]

ghost use Rattle.layout.specs.Lent.{devices};
ghost use Rattle.controllist.specs.Controls.{ControlsShown};
ghost use Rattle.seen.specs.Seen.{DeviceShown, HolderShown};
ghost use Rattle.served.specs.Served.{id_in, queue_with};

use controllist::CONTROLS_BYTES;
use fields::ID_BYTES;
use layout::{Drivers, Words};
use mask::Apqn;

// The id of the device in a slot, and 1 or 0 for whether it is open.
#[unsafe(no_mangle)]
pub extern "C" fn zk_raw_device(
    words: &Words,
    drivers: &Drivers,
    slot: usize,
    id: &mut [u8; ID_BYTES],
    mark: &mut u8,
) -> u8
    ensures { DeviceShown (devices words.entry slot) id.entry id.exit mark.entry mark.exit result }
{
    seen::device(words, slot, id, mark)
}

// The id of the device that has a queue.
#[unsafe(no_mangle)]
pub extern "C" fn zk_raw_holder(
    words: &Words,
    drivers: &Drivers,
    apid: u8,
    apqi: u8,
    id: &mut [u8; ID_BYTES],
) -> u8
    ensures { HolderShown (devices words.entry) (queue_with apid apqi) id.entry id.exit result }
{
    seen::holder(words, Apqn::new(apid, apqi), id)
}

// The lines of a device's assigned control domains, and the number of bytes.
#[unsafe(no_mangle)]
pub extern "C" fn zk_raw_control_domains(
    words: &Words,
    drivers: &Drivers,
    id: &[u8; ID_BYTES],
    text: &mut [u8; CONTROLS_BYTES],
    written: &mut usize,
) -> u8
    ensures { ControlsShown (devices words.entry) (id_in id.entry) text.entry text.exit
        written.entry written.exit result }
{
    controllist::control_domains(words, fields::id_of(id), text, written)
}
