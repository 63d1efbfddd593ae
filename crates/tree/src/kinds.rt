// The kinds of cells: an application, a variable by its sort, an atom by its letter.
ghost use Rattle.std.specs.Prelude.{◌≡◌, ◌<◌};
ghost use Rattle.tree.specs.Kinds.{letter_of, kind_number, coded_kind};

use rules::Sort;

#[derive(Clone, Copy, Debug, PartialEq, Eq)]
pub enum Kind {
    Application,
    // None for a name that has none of the five sorts.
    Variable(Option<Sort>),
    // The letter is a byte of the text: an enum of letters would be turned back into bytes.
    Atom(u8),
}

// No From: `of` asks for a number that a cell holds.
impl Kind {
    // The letter of an atom.
    pub(crate) fn letter(self) -> Option<u8>
        ensures { result ≡ letter_of self }
    {
        match self {
            Kind::Atom(letter) => Some(letter),
            Kind::Application | Kind::Variable(_) => None,
        }
    }

    // The number that a cell holds for it.
    pub(crate) fn number(self) -> usize
        ensures number { result ≡ kind_number self }
        ensures small { result < 256 }
    {
        match self {
            Kind::Application => 0,
            Kind::Variable(Some(Sort::Pub)) => 1,
            Kind::Variable(Some(Sort::Fresh)) => 2,
            Kind::Variable(Some(Sort::Msg)) => 3,
            Kind::Variable(Some(Sort::TamNat)) => 4,
            Kind::Variable(Some(Sort::Node)) => 5,
            Kind::Variable(None) => 6,
            Kind::Atom(letter) => letter as usize,
        }
    }

    // The kind that a number stands for. No letter is below 7.
    pub(crate) fn of(number: usize) -> Kind
        requires { number < 256 }
        ensures { result ≡ coded_kind number }
    {
        match number {
            0 => Kind::Application,
            1 => Kind::Variable(Some(Sort::Pub)),
            2 => Kind::Variable(Some(Sort::Fresh)),
            3 => Kind::Variable(Some(Sort::Msg)),
            4 => Kind::Variable(Some(Sort::TamNat)),
            5 => Kind::Variable(Some(Sort::Node)),
            6 => Kind::Variable(None),
            letter => Kind::Atom(letter as u8),
        }
    }
}
