// Bytes written as hex digits, two each: the ids and the hardware types of a console line.
//
// Rests on errno, digits, masktext, rules and fields.
#![tactic(auto)]

ghost use Rattle.std.specs.Prelude.{◌≡◌, ◌<◌, ◌≤◌, MatchResult};
ghost use Rattle.errno.specs.Outcome.{outcome};
ghost use Rattle.errno.specs.declared.Errno.TheVariants.{Einval};
ghost use Rattle.digits.specs.Digits.{digit_of};
ghost use Rattle.hexbytes.specs.HexBytes.{bytes_text, id_text, types_text};

use errno::Errno;
use fields::ID_BYTES;
use rules::Id;

// An id: 32 hex digits.
pub fn id(s: &[u8]) -> Result<Id, Errno>
    ensures { outcome result ≡ id_text s.now }
{
    let bytes = bytes::<ID_BYTES>(s)?;
    Ok(fields::id_of(&bytes))
}

// The hardware types of 256 adapters: 512 hex digits.
pub fn types(s: &[u8]) -> Result<[u8; 256], Errno>
    ensures { outcome result ≡ types_text s.now }
{
    bytes::<256>(s)
}

// The bytes that the digits stand for, where they are as many as N bytes take.
fn bytes<const N: usize>(s: &[u8]) -> Result<[u8; N], Errno>
    ensures { outcome result ≡ bytes_text N s.now }
{
    if s.len() / 2 != N {
        return Err(Errno::Einval);
    }
    if s.len() % 2 != 0 {
        return Err(Errno::Einval);
    }
    let mut out = [0u8; N];
    for (i, byte) in out.iter_mut().enumerate() {
        // Each digit is judged before the next is read: compilers then leave the test out for 0 to 9.
        let high = hex(s[2 * i])?;
        let low = hex(s[2 * i + 1])?;
        *byte = high * 16 + low;
    }
    Ok(out)
}

// The value of a hex digit.
#[tactic(auto, unfolding(digits::specs::Digits::digit_found))]
fn hex(c: u8) -> Result<u8, Errno>
    ensures { MatchResult result (λ d. (d ≡ digit_of c) × (d < 16)) (λ e. (e ≡ Einval) × (16 ≤ digit_of c)) }
{
    digits::digit_of(c).ok_or(Errno::Einval)
}
