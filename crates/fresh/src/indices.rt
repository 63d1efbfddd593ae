// The indices of variables: x and a number below 2^63.
ghost use Rattle.std.specs.Prelude.{◌≡◌};
ghost use Rattle.rules.specs.Variants.{index_of};

use syntax::{Digit, run_end};
use text::decimal::number_up_to;

// The largest number that an index may be.
const MOST: usize = 9223372036854775807;

// The index of a variable, by its name.
pub(crate) fn index_of(name: &[u8]) -> Option<usize>
    ensures { result ≡ index_of name.now }
{
    let rest = name.strip_prefix(b"x")?;
    let end = run_end::<Digit>(rest, 0);
    number_up_to(&rest[..end], MOST)
}
