// A line reader: a lent line and a place in it, kept together. A word is handed on as a part of the lent line.
//
// Rests on split.
#![tactic(auto)]

ghost use Rattle.std.specs.Prelude.{◌≡◌, ◌+◌, [], ◌∷◌, drop, length, MatchOption};
ghost use Rattle.split.specs.Cut.{piece_from};
ghost use Rattle.linereader.specs.Words.{left};

#[derive(Drop)]
pub struct LineReader<'a> {
    pub line: &'a [u8],
    pub at: usize,
}

impl<'a> LineReader<'a> {
    pub fn new(line: &'a [u8], at: usize) -> LineReader<'a>
        ensures { (result.line ≡ line.entry) × (result.at ≡ at) }
    {
        LineReader { line, at }
    }

    // The word that begins at the reader's place.
    pub fn word(&self) -> &'a [u8]
        ensures { result.now ≡ piece_from 32 self.now.at self.now.line.now }
    {
        split::piece(self.line, self.at, b' ')
    }

    // The word at the reader's place, which moves on to the next one; none past the end of the line.
    pub fn next(&mut self) -> Option<&'a [u8]>
        ensures word { MatchOption result ((left self.old ≡ []) × (left self.new ≡ [])) (λ w. left self.old ≡ w.now ∷ left self.new) }
        ensures line { self.new.line ≡ self.old.line }
        ensures place { MatchOption result (self.new.at ≡ self.old.at) (λ w. self.new.at ≡ self.old.at + length w.now + 1) }
    {
        if self.line.len() < self.at {
            return None;
        }
        let word = self.word();
        self.at += word.len() + 1;
        Some(word)
    }

    // The line from the reader's place on.
    pub fn rest(&self) -> &'a [u8]
        ensures { result.now ≡ drop self.now.at self.now.line.now }
    {
        self.line.get(self.at..).unwrap_or(&[])
    }
}
