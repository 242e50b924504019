// Carries out a list of commands, moves and sweeps, with demand 3 as its contract.
//
// Rests on errno, mask, rules, fields, layout, setup, model, calls, encoding and request.
#![tactic(auto)]

ghost use Rattle.std.specs.Prelude.{◌≤◌, length, get_or};
ghost use Rattle.run.specs.Running.{StepsOnce, CarriesOut, Runs};

use encoding::HEADER;
use layout::{Drivers, Words};
use mask::{Apid, Apqi, Apqn};

// Makes the lent memory a fresh record, carries out the requests, and writes a byte of answer for each. It answers how many
// it carried out: those for which there is room for an answer.
pub fn run(
    words: &mut Words,
    drivers: &mut Drivers,
    adapter: Apid,
    domain: Apqi,
    steps: &[u8],
    answers: &mut [u8],
) -> usize
    ensures { Runs adapter domain steps.entry answers.entry answers.exit words.exit drivers.exit result }
{
    // Limits of a byte are not refused.
    let _ = setup::fresh(words, drivers, u64::from(adapter.0), u64::from(domain.0));
    carry_out(words, drivers, steps, answers)
}

// Carries out the requests on a record as it is.
pub fn carry_out(
    words: &mut Words,
    drivers: &mut Drivers,
    steps: &[u8],
    answers: &mut [u8],
) -> usize
    ensures { CarriesOut steps.entry answers.entry answers.exit
        words.entry words.exit drivers.entry drivers.exit result }
{
    let mut at = 0usize;
    for (n, answer) in answers.iter_mut().enumerate() {
        let size = match encoding::size_at(steps, at) {
            Some(size) => size,
            None => return n,
        };
        *answer = step(words, drivers, &steps[at..at + size]);
        at += size;
    }
    answers.len()
}

// Carries out one request, and gives its answer as a byte.
fn step(words: &mut Words, drivers: &mut Drivers, bytes: &[u8]) -> u8
    requires { 20 ≤ length bytes.now }
    ensures { StepsOnce bytes.entry words.entry words.exit drivers.entry drivers.exit result }
{
    match bytes[0] {
        0..=8 => obey(words, drivers, bytes),
        10 => request::make_sweep(words, drivers, fields::number_of(&bytes[2..])),
        _ => request::make_move(words, drivers, Apqn::new(bytes[2], bytes[3])),
    }
}

// Carries out a command, and gives its answer as a byte.
fn obey(words: &mut Words, drivers: &mut Drivers, bytes: &[u8]) -> u8
    requires { (20 ≤ length bytes.now) × (get_or bytes.now 0 0 ≤ 8) }
    ensures { StepsOnce bytes.entry words.entry words.exit drivers.entry drivers.exit result }
{
    let kind = fields::kind_of(bytes[1]);
    let id = fields::id_of(&bytes[2..]);
    let command = encoding::command_of(bytes[0], kind, id, &bytes[HEADER..]);
    rules::answer_number(request::command(words, drivers, command))
}
