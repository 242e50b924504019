// Calls the functions of the service, and prints what each answers. The rows and the expected output are made by tests/cases.py,
// with a model in Python that is written from the rules (docs/RULES.md) and shares no code with the library.
#![tactic(auto)]

use layout::{Drivers, SLOTS, WORDS, Words};
use mask::{Apqn, Mask};
use rules::{Answer, Configuration, Driver, Id, Kind, Matrix, Moved, QUEUES};
use std::io;

// A row is two letters, for a group of functions and for one of them, and the words that are printed before its answer.
// The arguments are among these words. A row of the letters ## only prints its words. A semicolon ends a row.
fn main(rt: HostRuntime) -> io::Result<()> {
    let mut words = [0u64; WORDS];
    let mut drivers = [0u8; QUEUES];
    let mut rows = [0u8; 8192];
    let got = readfull::read_full(&mut rt.reader(), &mut rows)?;
    each(&rt, &mut words, &mut drivers, &rows[..got])
}

fn each(rt: &impl Print, words: &mut Words, drivers: &mut Drivers, rows: &[u8]) -> io::Result<()> {
    for part in rows.split(|c| *c == b';').take(256) {
        row(rt, words, drivers, part)?;
    }
    Ok(())
}

fn row(rt: &impl Print, words: &mut Words, drivers: &mut Drivers, row: &[u8]) -> io::Result<()> {
    if let [group, letter, _, s @ ..] = row {
        print::escaped(rt, s)?;
        step(rt, words, drivers, *group, *letter, s)?;
    }
    Ok(())
}

fn step(
    rt: &impl Print,
    words: &mut Words,
    drivers: &mut Drivers,
    group: u8,
    letter: u8,
    s: &[u8],
) -> io::Result<()> {
    match group {
        b'd' => answer(rt, device(words, letter, id(s))),
        b'a' => answer(rt, assign(words, letter, s)),
        b'h' => answer(rt, host(words, drivers, letter, s)),
        b'q' => queues(rt, words, drivers, letter, s),
        b'm' => shows(rt, words, drivers, letter, s),
        _ => end_line(rt),
    }
}

// ---- commands

fn answer(rt: &impl Print, a: Answer) -> io::Result<()> {
    print::answer(rt, b": ok\n", b": ", a)?;
    Ok(())
}

fn device(words: &mut Words, letter: u8, id: Id) -> Answer {
    match letter {
        b'c' => create::create(words, id),
        b'r' => devices::remove(words, id),
        b'o' => devices::open(words, id),
        _ => devices::close(words, id),
    }
}

fn assign(words: &mut Words, letter: u8, s: &[u8]) -> Answer {
    let id = id(s);
    let kind = kind(s);
    let text = word(s, 3);
    if letter == b'a' {
        return assign::assign(words, kind, id, text);
    }
    assign::unassign(words, kind, id, text)
}

fn kind(s: &[u8]) -> Kind {
    match letter(s) {
        b'a' => Kind::Adapter,
        b'd' => Kind::Domain,
        _ => Kind::Control,
    }
}

fn host(words: &mut Words, drivers: &mut Drivers, letter: u8, s: &[u8]) -> Answer {
    let text = word(s, 1);
    match letter {
        b'f' => setup::fresh(words, drivers, decimal(text), value(s, 2)),
        b'p' => host::set_apmask(words, text),
        b'q' => host::set_aqmask(words, text),
        _ => configure::configure(words, drivers, configuration(s)),
    }
}

// The hardware type of every adapter, and the masks as texts that start from the empty one.
fn configuration(s: &[u8]) -> Configuration {
    Configuration {
        adapters: bits(s, 2),
        domains: bits(s, 3),
        controls: bits(s, 4),
        types: [byte(s, 1); 256],
    }
}

fn bits(s: &[u8], k: usize) -> Mask {
    masktext::parse(word(s, k), Mask::empty()).unwrap_or(Mask::empty())
}

// ---- queues

fn queues(
    rt: &impl Print,
    words: &Words,
    drivers: &mut Drivers,
    letter: u8,
    s: &[u8],
) -> io::Result<()> {
    let n = value(s, 1);
    let queue = Apqn::new(byte(s, 1), byte(s, 2));
    match letter {
        b'm' => moved(rt, bind::move_queue(words, drivers, queue)),
        b't' => target(rt, target::target(words, queue)),
        b's' => sweep(rt, sweep::sweep(words, drivers, (n % 4294967296) as u32)),
        _ => number(rt, u64::from(due::remaining(words, drivers))),
    }
}

fn moved(rt: &impl Print, m: Moved) -> io::Result<()> {
    named(rt, movednames::word(m))
}

fn target(rt: &impl Print, d: Driver) -> io::Result<()> {
    match d {
        Driver::Host => named(rt, b"host"),
        Driver::Passthrough => named(rt, b"passthrough"),
        Driver::Unbound => named(rt, b"none"),
    }
}

fn named(rt: &impl Print, word: &[u8]) -> io::Result<()> {
    print::text(rt, b": ")?;
    print::text(rt, word)?;
    end_line(rt)
}

fn sweep(rt: &impl Print, r: sweep::Swept) -> io::Result<()> {
    number(rt, u64::from(r.used))?;
    print::text(rt, b"moves remain")?;
    yes(rt, r.more)
}

// ---- devices and their matrices

fn shows(
    rt: &impl Print,
    words: &Words,
    drivers: &Drivers,
    letter: u8,
    s: &[u8],
) -> io::Result<()> {
    let id = id(s);
    let matrix = matrix(s);
    match letter {
        b'i' => number(rt, lookup::find(words, id).unwrap_or(SLOTS) as u64),
        b'y' => {
            let queue = Apqn::new(byte(s, 2), byte(s, 3));
            yes(rt, guest::usable(words, drivers, id, queue))
        }
        b'k' => masks(rt, words, drivers, id, matrix),
        b'j' => lines(rt, words, drivers, id, matrix),
        _ => list(rt, words, drivers, id, matrix, s),
    }
}

fn matrix(s: &[u8]) -> Matrix {
    match letter(s) {
        b'a' => Matrix::Assigned,
        _ => Matrix::Guest,
    }
}

fn masks(
    rt: &impl Print,
    words: &Words,
    drivers: &Drivers,
    id: Id,
    matrix: Matrix,
) -> io::Result<()> {
    match guest::masks(words, drivers, id, matrix) {
        Ok(m) => {
            answer(rt, Ok(()))?;
            print::masks(rt, m)?;
            Ok(())
        }
        Err(e) => answer(rt, Err(e)),
    }
}

// How many lines a matrix has: none, where no device has the id.
fn lines(
    rt: &impl Print,
    words: &Words,
    drivers: &Drivers,
    id: Id,
    matrix: Matrix,
) -> io::Result<()> {
    match guest::masks(words, drivers, id, matrix) {
        Ok(m) => number(rt, u64::from(listing::lines(m))),
        Err(_) => number(rt, 0),
    }
}

fn list(
    rt: &impl Print,
    words: &Words,
    drivers: &Drivers,
    id: Id,
    matrix: Matrix,
    s: &[u8],
) -> io::Result<()> {
    let mut buf = [b'#'; 32];
    let place = value(s, 3) as usize;
    let room = value(s, 4) as usize;
    if room < 33 {
        match listing::list(words, drivers, id, matrix, place, &mut buf[..room]) {
            Ok(filled) => {
                answer(rt, Ok(()))?;
                print::decimal(rt, filled.written as u64)?;
                print::number(rt, b" ", filled.next as u64)?;
            }
            Err(e) => answer(rt, Err(e))?,
        }
        print::text(rt, &buf)?;
        end_line(rt)?;
    }
    Ok(())
}

// ---- ends of lines

fn end_line(rt: &impl Print) -> io::Result<()> {
    print::text(rt, b"\n")?;
    Ok(())
}

fn number(rt: &impl Print, n: u64) -> io::Result<()> {
    print::number(rt, b": ", n)?;
    Ok(())
}

fn yes(rt: &impl Print, b: bool) -> io::Result<()> {
    let word: &[u8] = if b { b": yes\n" } else { b": no\n" };
    print::text(rt, word)?;
    Ok(())
}

// ---- words

fn id(s: &[u8]) -> Id {
    let n = value(s, 1);
    Id { hi: n, lo: n }
}

fn byte(s: &[u8], k: usize) -> u8 {
    (value(s, k) % 256) as u8
}

fn value(s: &[u8], k: usize) -> u64 {
    decimal(word(s, k))
}

// The first letter of word 2, which tells the kind or the matrix.
fn letter(s: &[u8]) -> u8 {
    word(s, 2).first().copied().unwrap_or(0)
}

// A number in decimal. One that is too large counts as the largest.
fn decimal(s: &[u8]) -> u64 {
    s.iter().fold(0, |n, c| longer(n, *c))
}

fn longer(n: u64, c: u8) -> u64 {
    if n < 1844674407370955161 {
        n * 10 + u64::from(c % 16 % 10)
    } else {
        u64::MAX
    }
}

fn word(s: &[u8], k: usize) -> &[u8] {
    parts::part(s, b' ', k)
}
