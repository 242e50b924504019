// Reads the text of a number: base 16 after 0x, base 8 after a leading 0, else base 10.
//
// Rests on errno and digits.
#![tactic(auto)]

ghost use Rattle.std.specs.Prelude.{◌≡◌, ◌≤◌, cond, ◌+◌, ◌*◌, ltb};
ghost use Rattle.errno.specs.Outcome.{granted, refused, outcome};
ghost use Rattle.errno.specs.declared.Errno.TheVariants.{Einval};
ghost use Rattle.digits.specs.Digits.{digit_of};
ghost use Rattle.number.specs.Text.{digits, at_most, number_rule, number_text};

use errno::Errno;

// A number as a user writes it, with or without a final newline.
#[tactic(auto, unfolding(crate::specs::Text::number_text))]
pub fn parse(s: &[u8]) -> Result<u16, Errno>
    ensures { outcome result ≡ number_text s.now }
{
    parse_at_most(digits::body(s), 65535)
}

// A number of at most limit, with no newline.
pub fn parse_at_most(s: &[u8], limit: u16) -> Result<u16, Errno>
    ensures { outcome result ≡ number_rule limit s.now }
{
    if 16 < s.len() {
        return Err(Errno::Einval);
    }
    if let Some(hex) = s.strip_prefix(b"0x") {
        return digits_in(hex, 16, limit);
    }
    if s.first() == Some(&b'0') {
        return digits_in(s, 8, limit);
    }
    digits_in(s, 10, limit)
}

// The value of one digit or more. It never passes the limit, so it never wraps.
fn digits_in(s: &[u8], base: u8, limit: u16) -> Result<u16, Errno>
    requires { base ≤ 16 }
    ensures { outcome result ≡ at_most limit (digits base s.now) }
{
    if s.is_empty() {
        return Err(Errno::Einval);
    }
    let mut v: u16 = 0;
    for c in s {
        v = one_more(v, base, *c, limit)?;
    }
    Ok(v)
}

// The value after one more digit.
fn one_more(v: u16, base: u8, c: u8, limit: u16) -> Result<u16, Errno>
    requires { base ≤ 16 }
    ensures { outcome result ≡ cond (ltb (digit_of c) base) (at_most limit (granted (v * base + digit_of c))) (refused Einval) }
{
    let d = digits::digit_of(c)
        .filter(|d| *d < base)
        .ok_or(Errno::Einval)?;
    let next = u32::from(v) * u32::from(base) + u32::from(d);
    if u32::from(limit) < next {
        return Err(Errno::Einval);
    }
    Ok(next as u16)
}
