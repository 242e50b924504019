// Carries out one request, by the function that a caller would call.
//
// Rests on mask, rules, fields, layout, model, encoding, host, configure, bind, devices, create, assign, sweep and calls.
#![tactic(auto)]

ghost use Rattle.fields.specs.Fields.{configuration_of};
ghost use Rattle.layout.specs.Carried.{memory};
ghost use Rattle.model.specs.Steps.{configure};
ghost use Rattle.encoding.specs.Encoding.{move, sweep};
ghost use Rattle.encoding.specs.Meant.{meant};
ghost use Rattle.request.specs.Requests.{Stepped, Obeyed};

use encoding::Command;
use layout::{Drivers, Words};
use mask::Apqn;
use rules::Answer;

// Carries out a command.
pub fn command(words: &mut Words, drivers: &mut Drivers, command: Command) -> Answer
    ensures { Obeyed (meant command.entry) words.entry words.exit drivers.entry drivers.exit result }
{
    match command {
        Command::Create(id) => create::create(words, id),
        Command::Remove(id) => devices::remove(words, id),
        Command::Open(id) => devices::open(words, id),
        Command::Close(id) => devices::close(words, id),
        Command::Assign(kind, id, text) => assign::assign(words, kind, id, text),
        Command::Unassign(kind, id, text) => assign::unassign(words, kind, id, text),
        Command::SetApmask(text) => host::set_apmask(words, text),
        Command::SetAqmask(text) => host::set_aqmask(words, text),
        Command::Configure(bytes) => configured(words, drivers, bytes),
    }
}

// Configures by the bytes of a configuration. On its own, since the kit's compiler clears the room for what was read where the function
// that reads begins, and `command` is every command's.
fn configured(words: &mut Words, drivers: &mut Drivers, bytes: &[u8]) -> Answer
    ensures { Obeyed (configure (configuration_of bytes.now)) words.entry words.exit drivers.entry drivers.exit result }
{
    configure::configure(words, drivers, fields::configuration_of(bytes))
}

// Makes a move, and gives its answer as a byte.
pub fn make_move(words: &Words, drivers: &mut Drivers, queue: Apqn) -> u8
    ensures { Stepped (move queue.adapter.0 queue.domain.0) (memory words.now drivers.old)
        (memory words.now drivers.new) result }
{
    u8::from(bind::move_queue(words, drivers, queue))
}

// Makes a sweep, and tells by a byte whether moves remain.
pub fn make_sweep(words: &Words, drivers: &mut Drivers, budget: u32) -> u8
    ensures { Stepped (sweep budget) (memory words.now drivers.old)
        (memory words.now drivers.new) result }
{
    let swept = sweep::sweep(words, drivers, budget);
    u8::from(swept.more)
}
