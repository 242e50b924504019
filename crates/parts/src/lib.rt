// The parts of a text between separators: the rows of a program's table, and the words of a row.
//
// Rests on split.
#![tactic(auto)]

ghost use Rattle.std.specs.Prelude.{◌≡◌};
ghost use Rattle.parts.specs.Parts.{part};

// Part k of a text, where the first is 0. A text with fewer has the empty part there.
pub fn part(s: &[u8], c: u8, k: usize) -> &[u8]
    ensures { result.now ≡ part c k s.now }
{
    s.split(|b| *b == c).nth(k).unwrap_or(&[])
}
