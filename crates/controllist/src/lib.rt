// The assigned control domains of a device as text: a line of four hex digits for each, by ascending number.
//
// Rests on errno, digits, copy, mask, rules, layout, lines, record and lookup.
#![tactic(auto)]

ghost use Rattle.std.specs.Prelude.{◌++◌, ◌≡◌, ◌+◌, ◌≤◌, length, drop};
ghost use Rattle.std.proofs.Math.Seq.{paste};
ghost use Rattle.mask.specs.Bits.{bits};
ghost use Rattle.layout.specs.Lent.{devices};
ghost use Rattle.controllist.specs.Controls.{domain_line, domain_text, ControlsShown};

use errno::Errno;
use layout::Words;
use mask::{Apqi, Mask};
use rules::{Id, Kind};

// The bytes of a line.
pub const LINE: usize = 5;

// The bytes of all 256 lines.
pub const CONTROLS_BYTES: usize = 256 * LINE;

// Writes the lines of a device's assigned control domains, and leaves the number of bytes.
pub fn control_domains(
    words: &Words,
    id: Id,
    text: &mut [u8; CONTROLS_BYTES],
    written: &mut usize,
) -> u8
    ensures { ControlsShown (devices words.entry) id text.entry text.exit written.entry written.exit result }
{
    match lookup::find(words, id) {
        None => u8::from(Errno::Enoent),
        Some(slot) => {
            let controls = record::numbers(words, slot, Kind::Control);
            *written = write(controls, text);
            0
        }
    }
}

// Writes the lines of the domains in a mask. The answer is the number of bytes.
fn write(controls: Mask, text: &mut [u8]) -> usize
    requires { length text.old ≡ 1280 }
    ensures { (text.new ≡ domain_text (bits controls) ++ drop result text.old)
        × (result ≡ length (domain_text (bits controls))) }
{
    let mut at = 0usize;
    for domain in 0..=255u8 {
        if controls.has(Apqi(domain)) {
            put_line(text, at, domain);
            at += LINE;
        }
    }
    at
}

// Writes the line of a domain at an index of the text.
fn put_line(text: &mut [u8], at: usize, domain: u8)
    requires { at + 5 ≤ length text.old }
    ensures { text.new ≡ paste text.old at (domain_line domain) 5 }
{
    let line = line(domain);
    copy::copy(text, at, &line);
}

fn line(domain: u8) -> [u8; LINE]
    ensures { result ≡ domain_line domain }
{
    let high = digits::hex_digit(domain / 16);
    let low = digits::hex_digit(domain);
    [b'0', b'0', high, low, b'\n']
}
