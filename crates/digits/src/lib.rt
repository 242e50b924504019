// What the texts of numbers and of masks have in common: the final newline, the prefix 0x, digits.
//
// Rests on nothing.
#![tactic(auto)]

ghost use Rattle.std.specs.Prelude.{◌≡◌, ◌%◌};
ghost use Rattle.digits.specs.Digits.{digit_found, hex_digit, body, starts_hex};

// A text without one final newline.
pub fn body(s: &[u8]) -> &[u8]
    ensures { result.now ≡ body s.now }
{
    s.strip_suffix(b"\n").unwrap_or(s)
}

pub fn starts_hex(s: &[u8]) -> bool
    ensures { result ≡ starts_hex s.now }
{
    s.starts_with(b"0x")
}

// The value of a byte as a digit.
#[tactic(auto, unfolding(crate::specs::Digits::digit_found, crate::specs::Digits::digit_of))]
pub fn digit_of(c: u8) -> Option<u8>
    ensures { result ≡ digit_found c }
{
    // Range by range: of one `match` with all three the kit's compiler asks about both ends of two of them. And one test of the
    // value at the end, and no `Some` in each branch: that compiler then tests a digit once.
    let value = if matches!(c, b'0'..=b'9') {
        c - b'0'
    } else if matches!(c, b'a'..=b'f') {
        c - b'a' + 10
    } else if matches!(c, b'A'..=b'F') {
        c - b'A' + 10
    } else {
        16
    };
    if value < 16 { Some(value) } else { None }
}

// The lower-case hex digit of a number below 16; larger ones begin again. What is added is chosen, and not the sum: the
// kit's compiler and rustc make fewer instructions of that.
#[tactic(auto, unfolding(crate::specs::Digits::hex_digit))]
pub fn hex_digit(n: u8) -> u8
    ensures { result ≡ hex_digit (n % 16) }
{
    let d = n % 16;
    let first = if d < 10 { b'0' } else { b'a' - 10 };
    first + d
}
