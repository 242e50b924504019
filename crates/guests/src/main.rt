// The three guests of the kernel's document on vfio-ap, from a bare record to running; then the accident: a rehearsal guest asks for
// the live queue, and is refused by name. No control domain is assigned to guest 1: those of its masks are its usage domains.
#![tactic(auto)]

use layout::{Drivers, WORDS, Words};
use mask::Mask;
use rules::{Answer, Configuration, Id, Kind, Matrix, QUEUES};
use std::io;
use sweep::Swept;

fn main(rt: HostRuntime) -> io::Result<()> {
    let mut words = [0u64; WORDS];
    let mut drivers = [0u8; QUEUES];
    each(
        &rt,
        &mut words,
        &mut drivers,
        b"0f fresh record;\
        0p apmask -5,-6;\
        0q aqmask -4,-0x47,-0xab,-0xff;\
        0k configure 5,6 x 4,71,171,255;\
        0s sweep;\
        1c create guest 1;\
        1a adapter 5;\
        1a adapter 6;\
        1d domain 4;\
        1d domain 0xab;\
        1o open guest 1;\
        2c create guest 2;\
        2a adapter 5;\
        2d domain 0x47;\
        2d domain 0xff;\
        2o open guest 2;\
        3c create guest 3;\
        3a adapter 6;\
        3d domain 0x47;\
        3d domain 0xff;\
        3o open guest 3;\
        1m matrix of guest 1;\
        2m matrix of guest 2;\
        3m matrix of guest 3;\
        1g masks of guest 1;\
        9c create rehearsal;\
        9a adapter 5;\
        9d domain 4;",
    )
}

// A row is a guest's number, a letter for what is done, and the words that are printed; the second of them is the number or
// the mask. The rehearsal guest is number 9, and what it asks for at the end is guest 1's.
fn each(rt: &impl Print, words: &mut Words, drivers: &mut Drivers, rows: &[u8]) -> io::Result<()> {
    for part in rows.split(|c| *c == b';') {
        row(rt, words, drivers, part)?;
    }
    Ok(())
}

fn row(rt: &impl Print, words: &mut Words, drivers: &mut Drivers, row: &[u8]) -> io::Result<()> {
    if let [who, what, _, shown @ ..] = row {
        print::text(rt, shown)?;
        step(rt, words, drivers, *who, *what, parts::part(row, b' ', 2))?;
    }
    Ok(())
}

fn step(
    rt: &impl Print,
    words: &mut Words,
    drivers: &mut Drivers,
    who: u8,
    what: u8,
    text: &[u8],
) -> io::Result<()> {
    let id = Id {
        hi: 0,
        lo: u64::from(who % 16),
    };
    match what {
        b'm' => list(rt, words, drivers, id),
        b'g' => masks(rt, words, drivers, id),
        b's' => moves(rt, sweep::sweep(words, drivers, sweep::MOST_MOVES)),
        b'f' | b'p' | b'q' | b'k' => answer(rt, host(words, drivers, what, text)),
        _ => answer(rt, device(words, what, id, text)),
    }
}

// Takes the queues from the host's own drivers, and has them configured.
fn host(words: &mut Words, drivers: &mut Drivers, what: u8, text: &[u8]) -> Answer {
    match what {
        b'f' => setup::fresh(words, drivers, 255, 255),
        b'p' => host::set_apmask(words, text),
        b'q' => host::set_aqmask(words, text),
        _ => configure::configure(words, drivers, partition()),
    }
}

// What the partition has: adapters 5 and 6, and four domains.
fn partition() -> Configuration {
    let domains = Mask::empty().with(4).with(71).with(171).with(255);
    Configuration {
        adapters: Mask::empty().with(5).with(6),
        domains,
        controls: domains,
        types: [10u8; 256],
    }
}

fn device(words: &mut Words, what: u8, id: Id, text: &[u8]) -> Answer {
    match what {
        b'c' => create::create(words, id),
        b'o' => devices::open(words, id),
        _ => assign::assign(words, kind(what), id, text),
    }
}

fn kind(what: u8) -> Kind {
    match what {
        b'a' => Kind::Adapter,
        _ => Kind::Domain,
    }
}

fn answer(rt: &impl Print, a: Answer) -> io::Result<()> {
    print::answer(rt, b": ok\n", b": refused ", a)?;
    Ok(())
}

fn moves(rt: &impl Print, r: Swept) -> io::Result<()> {
    print::text(rt, b": ")?;
    print::decimal(rt, u64::from(r.used))?;
    print::text(rt, b" moves\n")?;
    Ok(())
}

fn list(rt: &impl Print, words: &Words, drivers: &Drivers, id: Id) -> io::Result<()> {
    let mut buf = [0u8; 64];
    let r = listing::list(words, drivers, id, Matrix::Guest, 0, &mut buf);
    print::text(rt, b"\n")?;
    if let Ok(filled) = r {
        print::first(rt, &buf, filled.written)?;
    }
    Ok(())
}

fn masks(rt: &impl Print, words: &Words, drivers: &Drivers, id: Id) -> io::Result<()> {
    print::text(rt, b"\n")?;
    if let Ok(m) = guest::masks(words, drivers, id, Matrix::Guest) {
        print::masks(rt, m)?;
    }
    Ok(())
}
