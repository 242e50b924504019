// Carries out a list of commands, moves and sweeps from standard input, and prints the answers, and what the list left
// before and after one more sweep. The list and the expected output are made by tests/lists.py.
#![tactic(auto)]

use layout::{Drivers, WORDS, Words};
use mask::{Apid, Apqi};
use rules::{Id, Matrix, QUEUES};
use std::io;

fn main(rt: HostRuntime) -> io::Result<()> {
    let mut words = [0u64; WORDS];
    let mut drivers = [0u8; QUEUES];
    list(&rt, &mut words, &mut drivers)?;
    left(&rt, &words, &drivers)?;
    let r = sweep::sweep(&words, &mut drivers, sweep::MOST_MOVES);
    print::number(&rt, b"sweep ", u64::from(r.used))?;
    left(&rt, &words, &drivers)
}

fn list(rt: &(impl Input + Print), words: &mut Words, drivers: &mut Drivers) -> io::Result<()> {
    let mut steps = [0u8; 32768];
    let mut answers = [255u8; 640];
    let got = readfull::read_full(&mut rt.reader(), &mut steps)?;
    let n = run::run(
        words,
        drivers,
        Apid(255),
        Apqi(255),
        &steps[..got],
        &mut answers,
    );
    print::number(rt, b"steps ", n as u64)?;
    for answer in answers.iter().take(n) {
        print::number(rt, b"", u64::from(*answer))?;
    }
    Ok(())
}

// The moves remaining, and the matrices of the devices.
fn left(rt: &impl Print, words: &Words, drivers: &Drivers) -> io::Result<()> {
    print::number(rt, b"remaining ", u64::from(due::remaining(words, drivers)))?;
    for n in 1..10u64 {
        device(rt, words, drivers, n)?;
    }
    Ok(())
}

fn device(rt: &impl Print, words: &Words, drivers: &Drivers, n: u64) -> io::Result<()> {
    let id = Id { hi: 0, lo: n };
    if let Some(slot) = lookup::find(words, id) {
        print::number(rt, b"device ", n)?;
        if record::is_open(words, slot) {
            print::text(rt, b" open\n")?;
        }
        matrix(rt, words, drivers, id, Matrix::Assigned)?;
        matrix(rt, words, drivers, id, Matrix::Guest)?;
    }
    Ok(())
}

// A matrix as masks, and as its listing, of which 32 lines are room enough.
fn matrix(
    rt: &impl Print,
    words: &Words,
    drivers: &Drivers,
    id: Id,
    which: Matrix,
) -> io::Result<()> {
    if let Ok(m) = guest::masks(words, drivers, id, which) {
        print::masks(rt, m)?;
    }
    let mut lines = [0u8; 256];
    if let Ok(filled) = listing::list(words, drivers, id, which, 0, &mut lines) {
        print::first(rt, &lines, filled.written)?;
        print::number(rt, b" next ", filled.next as u64)?;
    }
    Ok(())
}
