// What the programs print with. All of it goes to standard output, and no contract can say what arrives there: those
// here say how much was handed over, or what it was made from. An error is of the write that failed, after which nothing
// more is written.
//
// Rests on errno, mask, masks and rules.
#![tactic(auto)]

ghost use Rattle.std.specs.Prelude.{◌≡◌, ◌+◌, min, length, IfOk};
ghost use Rattle.errno.specs.Errno.{number_of};
ghost use Rattle.mask.specs.Bits.{bits, count_below};
ghost use Rattle.rules.specs.Commands.{answered};
ghost use Rattle.print.specs.Digits.{IsDigitCount};

use errno::Errno;
use mask::Mask;
use rules::{Answer, Masks};
use std::io;

pub fn text(rt: &impl Print, s: &[u8]) -> io::Result<usize>
    ensures { IfOk result (λ r. r ≡ length s.now) }
{
    rt.write_all(s)?;
    Ok(s.len())
}

// The first n bytes, or all where there are fewer.
pub fn first(rt: &impl Print, s: &[u8], n: usize) -> io::Result<usize>
    ensures { IfOk result (λ r. r ≡ min n (length s.now)) }
{
    text(rt, &s[..s.len().min(n)])
}

// A text with each newline as \n, so that it stays on its line. Answers the length of the text itself.
pub fn escaped(rt: &impl Print, s: &[u8]) -> io::Result<usize>
    ensures { IfOk result (λ r. r ≡ length s.now) }
{
    for c in s {
        if *c == b'\n' {
            text(rt, b"\\n")?;
        } else {
            text(rt, &[*c])?;
        }
    }
    Ok(s.len())
}

// A line of a label and a number in decimal. Answers how many digits that took.
pub fn number(rt: &impl Print, label: &[u8], n: u64) -> io::Result<usize>
    ensures { IfOk result (λ r. IsDigitCount 10 1 n r) }
{
    text(rt, label)?;
    let r = decimal(rt, n)?;
    text(rt, b"\n")?;
    Ok(r)
}

// A number in decimal. Answers how many digits that took.
pub fn decimal(rt: &impl Print, n: u64) -> io::Result<usize>
    ensures { IfOk result (λ r. IsDigitCount 10 1 n r) }
{
    rt.print(n)?;
    Ok(n.checked_ilog10().map_or(1, |k| k as usize + 1))
}

// What a command answered: the line for done, or a text and the name of the refusal. Answers the errno value.
pub fn answer(rt: &impl Print, done: &[u8], refused: &[u8], a: Answer) -> io::Result<u8>
    ensures { IfOk result (λ r. r ≡ answered a) }
{
    let r = rules::answer_number(a);
    match a {
        Ok(()) => {
            text(rt, done)?;
        }
        Err(e) => {
            text(rt, refused)?;
            name(rt, e)?;
            text(rt, b"\n")?;
        }
    }
    Ok(r)
}

// The name of a refusal. Answers its errno value.
pub fn name(rt: &impl Print, e: Errno) -> io::Result<u8>
    ensures { IfOk result (λ r. r ≡ number_of e) }
{
    text(rt, errno::name(e))?;
    Ok(u8::from(e))
}

// The three masks of a matrix, a line for each. Answers how many bits are set in all.
#[tactic(auto, using(mask::proofs::Laws::count_le))]
pub fn masks(rt: &impl Print, m: Masks) -> io::Result<u32>
    ensures { IfOk result (λ r. r ≡ count_below 256 (bits m.adapters) + count_below 256 (bits m.domains)
        + count_below 256 (bits m.controls)) }
{
    let a = mask_bits(rt, b" adapters", m.adapters)?;
    let d = mask_bits(rt, b" domains", m.domains)?;
    let c = mask_bits(rt, b" controls", m.controls)?;
    Ok(a + d + c)
}

// A line of a label and the numbers of a mask's bits. Answers how many there are.
pub fn mask_bits(rt: &impl Print, label: &[u8], m: Mask) -> io::Result<u32>
    ensures { IfOk result (λ r. r ≡ count_below 256 (bits m)) }
{
    text(rt, label)?;
    for i in 0..=255u8 {
        bit(rt, m, i)?;
    }
    text(rt, b"\n")?;
    Ok(masks::count(m))
}

fn bit(rt: &impl Print, m: Mask, i: u8) -> io::Result<()> {
    if m.has(i) {
        text(rt, b" ")?;
        decimal(rt, u64::from(i))?;
    }
    Ok(())
}

// A mask as its 64 hex digits. Answers how many were written.
pub fn mask_hex(rt: &impl Print, m: Mask) -> io::Result<usize>
    ensures { IfOk result (λ r. r ≡ 64) }
{
    let mut n = 0;
    for word in &m.words {
        n += word_hex(rt, *word)?;
    }
    Ok(n)
}

fn word_hex(rt: &impl Print, word: u64) -> io::Result<usize>
    ensures { IfOk result (λ r. r ≡ 16) }
{
    print!(rt; "{word:016x}")?;
    Ok(16)
}
