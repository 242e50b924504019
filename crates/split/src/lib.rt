// Cuts bytes at a separator: the lines of an input, the words of a line.
//
// Rests on nothing.
#![tactic(auto)]

ghost use Rattle.std.specs.Prelude.{◌≡◌, ◌==◌, ◌||◌, position};
ghost use Rattle.split.specs.Cut.{holds, end_from, piece_from};

// Where the piece that begins at an index ends: the first separator from there on, or the end of the bytes.
pub fn end(s: &[u8], from: usize, c: u8) -> usize
    ensures { result ≡ end_from c from s.now }
{
    match s.get(from..) {
        Some(rest) => from + first(rest, c).unwrap_or(rest.len()),
        None => from,
    }
}

// The index of the first separator.
fn first(s: &[u8], c: u8) -> Option<usize>
    ensures { result ≡ position (λ b. b == c) s.now }
{
    s.iter().position(|b| *b == c)
}

// The piece that begins at an index, as a part of the lent bytes; past their end there is an empty one.
pub fn piece(s: &[u8], from: usize, c: u8) -> &[u8]
    ensures { result.now ≡ piece_from c from s.now }
{
    if s.len() < from {
        return &s[s.len()..];
    }
    &s[from..end(s, from, c)]
}

// Whether a byte occurs. All bytes are looked at, in a loop that has no way out, which compilers make wide.
pub fn holds(s: &[u8], c: u8) -> bool
    ensures { result ≡ holds c s.now }
{
    let mut found = false;
    for b in s {
        found = either(found, *b == c);
    }
    found
}

// Asked about its second argument first, which is of the byte at hand: the other way round rustc 1.95 does not make the loop wide.
fn either(a: bool, b: bool) -> bool
    ensures { result ≡ (a || b) }
{
    if b { true } else { a }
}
