// The names that reduction and schemes make.
ghost use Rattle.std.specs.Prelude.{◌≡◌, ◌<◌};
ghost use Rattle.tree.specs.Names.{fixed_text, fixed_code, coded_fixed};

#[derive(Clone, Copy, Debug, PartialEq, Eq)]
pub enum Fixed {
    RoleA,
    RoleB,
    Pair,
    Senc,
    Kem,
    Pk,
}

// The code of the first name that no sheet spells: those below it are these names'.
pub const UNSPELLED: usize = 7;

impl Fixed {
    // No Display: that would write through a formatter.
    pub fn text(self) -> &'static [u8]
        ensures { result.now ≡ fixed_text self }
    {
        match self {
            Fixed::RoleA => b"tamXCroleA",
            Fixed::RoleB => b"tamXCroleB",
            Fixed::Pair => b"tamXCpair",
            Fixed::Senc => b"tamXCsenc",
            Fixed::Kem => b"tamXCkem",
            Fixed::Pk => b"tamXCpk",
        }
    }

    // The name of a code, if it is one of these. An Option and no TryFrom: no caller wants an error.
    pub fn of(code: usize) -> Option<Fixed>
        ensures { result ≡ coded_fixed code }
    {
        match code {
            1 => Some(Fixed::RoleA),
            2 => Some(Fixed::RoleB),
            3 => Some(Fixed::Pair),
            4 => Some(Fixed::Senc),
            5 => Some(Fixed::Kem),
            6 => Some(Fixed::Pk),
            _ => None,
        }
    }

    // Its code in a cell.
    pub(crate) fn code(self) -> usize
        ensures code { result ≡ fixed_code self }
        ensures few { (0 < result) × (result < 7) }
    {
        match self {
            Fixed::RoleA => 1,
            Fixed::RoleB => 2,
            Fixed::Pair => 3,
            Fixed::Senc => 4,
            Fixed::Kem => 5,
            Fixed::Pk => 6,
        }
    }
}
