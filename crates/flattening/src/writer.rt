// Words written one after another.
ghost use Rattle.std.specs.Prelude.{◌≡◌, ◌<◌, ◌≤◌, [], ◌∷◌, length};
ghost use Rattle.std.proofs.Math.Seq.{slice};
ghost use Rattle.flattening.specs.Writers.{Appended};

// Lent words, and where the next one is written.
#[derive(Drop)]
pub struct Writer<'w> {
    pub words: &'w mut [u32],
    pub end: usize,
}

impl Writer<'_> {
    pub fn push(&mut self, word: u32)
        requires { self.old.end < length self.old.words.now }
        ensures { Appended self.old self.new (word ∷ []) }
    {
        self.words[self.end] = word;
        self.end += 1;
    }

    // The words that were written from a place on.
    #[tactic(auto, using(text::proofs::Slices::drop_take))]
    pub fn since(&self, from: usize) -> &[u32]
        requires { (from ≤ self.now.end) × (self.now.end ≤ length self.now.words.now) }
        ensures { result.now ≡ slice from self.now.end self.now.words.now }
    {
        let end = self.end;
        &self.words[from..end]
    }
}
