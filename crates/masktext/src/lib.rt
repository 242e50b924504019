// Reads the text of a mask: hex digits after 0x, or a list of items that are worked on the old mask.
//
// Rests on mask, errno, digits, maskbytes and number.
#![tactic(auto)]

ghost use Rattle.std.specs.Prelude.{◌≡◌};
ghost use Rattle.mask.specs.Bits.{bits};
ghost use Rattle.masktext.specs.Text.{outcome, hex_mask, parts, mask_text};
ghost use Rattle.masktext.specs.Text as Text;

use errno::Errno;
use mask::Mask;

// A mask as a user writes it, with or without a final newline.
#[tactic(auto, using(digits::proofs::Laws::prefix_is), unfolding(crate::specs::Text::mask_text))]
pub fn parse(s: &[u8], old: Mask) -> Result<Mask, Errno>
    ensures { outcome result ≡ mask_text s.now (bits old) }
{
    let b = digits::body(s);
    match b.strip_prefix(b"0x") {
        Some(hex) => hex_mask(hex),
        None => items(b, old),
    }
}

// The hex digits of a mask.
fn hex_mask(s: &[u8]) -> Result<Mask, Errno>
    ensures { outcome result ≡ hex_mask s.now }
{
    if s.is_empty() || 64 < s.len() {
        return Err(Errno::Einval);
    }
    let mut m = Mask::empty();
    for (i, c) in s.iter().enumerate() {
        let d = digits::digit_of(*c).ok_or(Errno::Einval)?;
        m = maskbytes::with_nibble(m, i as u8, d);
    }
    Ok(m)
}

// The items of s, worked on the old mask.
fn items(s: &[u8], old: Mask) -> Result<Mask, Errno>
    ensures { outcome result ≡ Text.items (bits old) (parts s.now) }
{
    let mut m = old;
    for part in s.split(|c| *c == b',') {
        m = item(part, m)?;
    }
    Ok(m)
}

// One item, worked on a mask.
fn item(s: &[u8], m: Mask) -> Result<Mask, Errno>
    ensures { outcome result ≡ Text.item (bits m) s.now }
{
    let (sign, number) = s.split_first().ok_or(Errno::Einval)?;
    let n = number::parse_at_most(number, 255)? as u8;
    match *sign {
        b'+' => Ok(m.with(n)),
        b'-' => Ok(m.without(n)),
        _ => Err(Errno::Einval),
    }
}
