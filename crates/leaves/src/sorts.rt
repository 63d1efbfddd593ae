// The sort of a leaf that is a variable, by its name.
ghost use Rattle.std.specs.Prelude.{◌≡◌};
ghost use Rattle.rules.specs.Sorts.{sort_named, variable_sort};
ghost use Rattle.leaves.specs.Leaves.{colon_in, leaf_sort};

use rules::Sort;

// The sort of a name, None for a name that no sort has.
#[tactic(auto, using(crate::proofs::SortNames::unnamed, crate::proofs::SortNames::named_tam_nat), unfolding(rules::specs::Sorts::sort_named, rules::specs::Bytes::same))]
fn sort_named(name: &[u8]) -> Option<Sort>
    ensures { result ≡ sort_named name.now }
{
    match name {
        b"Pub" => Some(Sort::Pub),
        b"Fresh" => Some(Sort::Fresh),
        b"Msg" => Some(Sort::Msg),
        b"TamNat" => Some(Sort::TamNat),
        b"Node" => Some(Sort::Node),
        _ => None,
    }
}

// Where the first colon of a name stands. One call of the library: a function for any byte is no plainer.
fn colon(name: &[u8]) -> Option<usize>
    ensures { result ≡ colon_in name.now }
{
    name.iter().position(|b| *b == b':')
}

// What a leaf is: None for a name without a colon, else a variable, of the sort that is named after the first.
// An Option in an Option: an enum would be matched once.
pub fn leaf_sort(name: &[u8]) -> Option<Option<Sort>>
    ensures { result ≡ leaf_sort name.now }
{
    let at = colon(name)?;
    Some(sort_named(&name[at + 1..]))
}

// The sort of a variable.
pub fn variable_sort(name: &[u8]) -> Option<Sort>
    ensures { result ≡ variable_sort name.now }
{
    leaf_sort(name)?
}
