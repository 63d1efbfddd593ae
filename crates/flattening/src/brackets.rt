// The brackets of lists: that of a sum inside a sum is not written.
ghost use Rattle.std.specs.Prelude.{◌≡◌, ◌+◌, ◌<◌, ◌≤◌, length};
ghost use Rattle.flattening.specs.Items.{of_sum, opening, bracket, bracket_at, closing, last_open};
ghost use Rattle.flattening.specs.Writers.{Appended, open_in, Opens, Closes};

use crate::writer::Writer;
use runs::{OPEN, PLUS, SHUT};

// An opening bracket: that of a list that is no sum, of a sum, or of a sum inside a sum, which is not written.
#[derive(Clone, Copy, Debug, PartialEq, Eq)]
pub enum Bracket {
    Plain,
    Sum,
    Inner,
}

// The numbers of two of them.
const PLAIN: u32 = Bracket::Plain as u32;

const INNER: u32 = Bracket::Inner as u32;

impl Bracket {
    // The bracket of a list inside this one's, of a sum or not.
    // The bool is an answer, never a literal.
    pub fn within(self, sum: bool) -> Bracket
        ensures { result ≡ bracket sum (of_sum self) }
    {
        match (sum, self) {
            (false, _) => Bracket::Plain,
            (true, Bracket::Plain) => Bracket::Sum,
            (true, _) => Bracket::Inner,
        }
    }

    // The number that is kept of it, and the bracket of a number.
    // No From: the numbers are known here alone.
    fn number(self) -> u32
        ensures { bracket_at result ≡ self }
    {
        self as u32
    }

    fn of(number: u32) -> Bracket
        ensures { result ≡ bracket_at number }
    {
        match number {
            PLAIN => Bracket::Plain,
            INNER => Bracket::Inner,
            _ => Bracket::Sum,
        }
    }

    // Writes it, after the word of its name.
    pub fn open(self, name: u32, out: &mut Writer)
        requires { out.old.end + 2 ≤ length out.old.words.now }
        ensures { Appended out.old out.new (opening self name) }
    {
        let name = match self {
            Bracket::Plain => name,
            Bracket::Sum => PLUS,
            Bracket::Inner => return,
        };
        out.push(name);
        out.push(OPEN);
    }

    // Writes the bracket that closes it.
    pub fn close(self, out: &mut Writer)
        requires { out.old.end < length out.old.words.now }
        ensures { Appended out.old out.new (closing self) }
    {
        if self != Bracket::Inner {
            out.push(SHUT);
        }
    }
}

// The brackets that are open, as numbers in lent words.
// Writer only grows: one type for both would be no plainer.
#[derive(Drop)]
pub(crate) struct Stack<'w> {
    pub(crate) words: &'w mut [u32],
    pub(crate) depth: usize,
}

impl Stack<'_> {
    // The last of them, and a plain one where none is open.
    pub(crate) fn last(&self) -> Bracket
        requires { self.now.depth ≤ length self.now.words.now }
        ensures { result ≡ last_open (open_in self.now) }
    {
        if self.depth == 0 {
            return Bracket::Plain;
        }
        Bracket::of(self.words[self.depth - 1])
    }

    pub(crate) fn push(&mut self, bracket: Bracket)
        requires { self.old.depth < length self.old.words.now }
        ensures { Opens self.old self.new bracket }
    {
        self.words[self.depth] = bracket.number();
        self.depth += 1;
    }

    pub(crate) fn pop(&mut self) -> Bracket
        requires { (0 < self.old.depth) × (self.old.depth ≤ length self.old.words.now) }
        ensures { Closes self.old self.new result }
    {
        self.depth -= 1;
        Bracket::of(self.words[self.depth])
    }
}
