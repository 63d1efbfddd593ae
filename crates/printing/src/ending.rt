// The end of a line, which counts the lines that its text takes on paper; lines of a key and a word or a number.
ghost use Rattle.std.specs.Prelude.{◌-◌, ◌≤◌, [], ◌∷◌, length};
ghost use Rattle.rules.specs.Answer.{line};
ghost use Rattle.rules.specs.Decimal.{decimal};
ghost use Rattle.printing.specs.Paper.{lines_for};
ghost use Rattle.printing.specs.Putting.{PutInto};

use crate::output::Output;

impl Output<'_> {
    // The end of a line whose text begins at `from`.
    pub(crate) fn end_line(&mut self, from: usize) -> Option<()>
        requires { (self.old.lines ≤ from) × (from ≤ self.old.at) }
        ensures { PutInto self.old self.new (10 ∷ []) (lines_for (self.old.at - from)) result }
    {
        let length = self.at - from;
        self.text(b"\n")?;
        self.lines += 1 + length.saturating_sub(1) / 63;
        Some(())
    }

    // The line of a key and a word.
    pub fn word_line(&mut self, key: &[u8], word: &[u8]) -> Option<()>
        ensures { PutInto self.old self.new (line key.now word.now) (lines_for (length word.now)) result }
    {
        self.text(key)?;
        let from = self.at;
        self.text(word)?;
        self.end_line(from)
    }

    // The line of a key and a number.
    pub fn number_line(&mut self, key: &[u8], n: usize) -> Option<()>
        ensures { PutInto self.old self.new (line key.now (decimal n)) (lines_for (length (decimal n))) result }
    {
        self.text(key)?;
        let from = self.at;
        self.decimal(n)?;
        self.end_line(from)
    }
}
