// Names of leaves and of atoms.
#![tactic(auto)]

pub mod sorts; // sorts.rt: the sort of a leaf that is a variable

ghost use Rattle.std.specs.Prelude.{◌≡◌};
ghost use Rattle.rules.specs.Names.{digit, letter, letter_name, all};
ghost use Rattle.leaves.specs.Leaves.{name_letter};

// The letter of atoms that a name is.
#[tactic(auto, unfolding(rules::specs::Names::letter_name, rules::specs::Names::letter))]
pub fn letter_of(name: &[u8]) -> Option<u8>
    ensures { result ≡ name_letter name.now }
{
    match name {
        [letter @ (b'p' | b'f' | b'c' | b't' | b'n')] => Some(*letter),
        _ => None,
    }
}

// Whether a name has digits alone.
pub fn all_digits(name: &[u8]) -> bool
    ensures { result ≡ all digit name.now }
{
    name.iter().all(|b| text::is_digit(*b))
}
