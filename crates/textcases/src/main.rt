// Reads texts of numbers and masks, and prints what each comes to. The expected output is made by tests/textcases.py,
// which is written from the rules (docs/RULES.md, "Text") and shares no code with the readers.
#![tactic(auto)]

use errno::Errno;
use mask::Mask;
use std::io;

// A text stands between the letter that says how it is read and a semicolon: n as a number; e and f as a mask, on the
// empty and on the full one; l, h and i each of its starts, as a number (with a newline too), as a hex mask and as an
// item; N and M with every byte at every place, as a number and as a mask: a line for each text that is good.
fn main(rt: HostRuntime) -> io::Result<()> {
    each(
        &rt,
        b"n4;n0x5;n020;n0x8;n0107;n71\n;n0x47;n0;n0\n;n00;n256;n65535;n65536;n0xffff;n0xFfFf;\
        n0x10000;n0177777;n0200000;n08;n0x;n0X5;nx5;n+5;n-5;n 5;n5 ;n;n\n;n5\n\n;n\n5;n5a;n0xg;\
        e0x41;e0x7d;f0x41;e0xffff;e0x40;\
        e0x7dffffffffffffffffffffffffffffffffffffffffffffffffffffffffffffff;\
        e0x7DFFFFFFFFFFFFFFFFFFFFFFFFFFFFFFFFFFFFFFFFFFFFFFFFFFFFFFFFFFFFFF\n;\
        e+0;f-13;e+0x41;f-0xff;e+0,-6,+0x47,-0xf0;f+0,-6,+0x47,-0xf0;f-5,-6;\
        f-4,-0x47,-0xab,-0xff\n;e+5,-5,+5;e+255;e+256;e+0377;e+0400;\
        f;f\n;f0x;f0xfg;f0X41;f5;f+;f+5,;f,+5;f+5,,+6;f+5\n,+6;f+5,+6\n\n;f+ 5;f+5 +6;f++5;f+08;\
        l000000000000000000000;l111111111111111111111;\
        h0xccccccccccccccccccccccccccccccccccccccccccccccccccccccccccccccccccccc;\
        i+000000000000000000000;\
        N7;N10\n;N0x1f;N0107;\
        M0x4;M0xa1\n;M+1;M-0x9,+07\n;",
    )
}

fn each(rt: &impl Print, table: &[u8]) -> io::Result<()> {
    for part in table.split(|c| *c == b';') {
        row(rt, part)?;
    }
    Ok(())
}

fn row(rt: &impl Print, s: &[u8]) -> io::Result<()> {
    match s.split_first() {
        Some((how, text)) => read(rt, *how, text),
        None => Ok(()),
    }
}

fn read(rt: &impl Print, how: u8, s: &[u8]) -> io::Result<()> {
    match how {
        b'n' => number(rt, s),
        b'e' => mask(rt, s, Mask::empty()),
        b'f' => mask(rt, s, Mask::full()),
        b'l' => number_starts(rt, s),
        b'h' => mask_starts(rt, s, 2, Mask::full()),
        b'i' => mask_starts(rt, s, 1, Mask::empty()),
        _ => bytes(rt, how, s),
    }
}

fn number(rt: &impl Print, s: &[u8]) -> io::Result<()> {
    label(rt, b"number ", s)?;
    number_outcome(rt, number::parse(s))
}

fn label(rt: &impl Print, word: &[u8], s: &[u8]) -> io::Result<()> {
    print::text(rt, word)?;
    print::escaped(rt, s)?;
    print::text(rt, b": ")?;
    Ok(())
}

fn number_outcome(rt: &impl Print, r: Result<u16, Errno>) -> io::Result<()> {
    match r {
        Ok(v) => {
            print::number(rt, b"", u64::from(v))?;
        }
        Err(e) => {
            refused(rt, e)?;
        }
    }
    Ok(())
}

fn mask(rt: &impl Print, s: &[u8], old: Mask) -> io::Result<()> {
    label(rt, b"mask ", s)?;
    mask_outcome(rt, masktext::parse(s, old))
}

fn mask_outcome(rt: &impl Print, r: Result<Mask, Errno>) -> io::Result<()> {
    match r {
        Ok(m) => {
            print::text(rt, b"0x")?;
            print::mask_hex(rt, m)?;
            print::text(rt, b"\n")?;
        }
        Err(e) => {
            refused(rt, e)?;
        }
    }
    Ok(())
}

fn refused(rt: &impl Print, e: Errno) -> io::Result<()> {
    print::name(rt, e)?;
    print::text(rt, b"\n")?;
    Ok(())
}

fn number_starts(rt: &impl Print, t: &[u8]) -> io::Result<()> {
    for n in 0..t.len() {
        number_start(rt, changed(t, n, b'\n'), n)?;
    }
    Ok(())
}

fn number_start(rt: &impl Print, s: [u8; 24], n: usize) -> io::Result<()> {
    if n < 24 {
        number_outcome(rt, number::parse(&s[..n]))?;
        number_outcome(rt, number::parse(&s[..n + 1]))?;
    }
    Ok(())
}

fn mask_starts(rt: &impl Print, t: &[u8], from: usize, old: Mask) -> io::Result<()> {
    for n in from..t.len() {
        mask_outcome(rt, masktext::parse(&t[..n], old))?;
    }
    Ok(())
}

fn bytes(rt: &impl Print, how: u8, t: &[u8]) -> io::Result<()> {
    for place in 0..t.len() {
        for b in 0..=255u8 {
            changed_byte(rt, how, t, place, b)?;
        }
    }
    Ok(())
}

fn changed_byte(rt: &impl Print, how: u8, t: &[u8], place: usize, b: u8) -> io::Result<()> {
    let s = changed(t, place, b);
    match s.get(..t.len()) {
        Some(text) if how == b'N' => number_line(rt, text, place, b),
        Some(text) => mask_line(rt, text, place, b),
        None => Ok(()),
    }
}

fn number_line(rt: &impl Print, s: &[u8], place: usize, b: u8) -> io::Result<()> {
    if let Ok(v) = number::parse(s) {
        place_and_byte(rt, place, b)?;
        number_outcome(rt, Ok(v))?;
    }
    Ok(())
}

fn mask_line(rt: &impl Print, s: &[u8], place: usize, b: u8) -> io::Result<()> {
    if let Ok(m) = masktext::parse(s, Mask::full()) {
        place_and_byte(rt, place, b)?;
        mask_outcome(rt, Ok(m))?;
    }
    Ok(())
}

fn place_and_byte(rt: &impl Print, place: usize, b: u8) -> io::Result<()> {
    print::decimal(rt, place as u64)?;
    print::text(rt, b" ")?;
    print::decimal(rt, u64::from(b))?;
    print::text(rt, b" ")?;
    Ok(())
}

// A text of at most 24 bytes, with another byte at a place.
fn changed(t: &[u8], place: usize, b: u8) -> [u8; 24] {
    let mut s = [0u8; 24];
    for (to, from) in s.iter_mut().zip(t) {
        *to = *from;
    }
    if let Some(to) = s.get_mut(place) {
        *to = b;
    }
    s
}
