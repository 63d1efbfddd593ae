// Bytes and texts: classes of bytes, the screening of a sheet, counting.
#![tactic(auto)]

pub mod copying; // copying.rt: slices copied
pub mod decimal; // decimal.rt: decimal numbers
pub mod places; // places.rt: texts named by places, and sorting by them
pub mod sorting; // sorting.rt: words sorted by a test

ghost use Rattle.std.specs.Prelude.{◌≡◌};
ghost use Rattle.rules.specs.Text.{count_of};
ghost use Rattle.rules.specs.Names.{digit, alphabetic, alphanumeric};
ghost use Rattle.rules.specs.Call.{plain};
ghost use Rattle.text.specs.Screen.{screened};

use rules::Refusal;

// A byte that a sheet may hold: 10 or 32 to 126.
fn is_plain(b: u8) -> bool
    ensures { result ≡ plain b }
{
    matches!(b, b'\n' | b' '..=b'~')
}

// 0 to 9. This and the next two are the one place where a class of the definitions meets the code.
pub fn is_digit(b: u8) -> bool
    ensures { result ≡ digit b }
{
    b.is_ascii_digit()
}

// A to Z and a to z.
pub fn is_alphabetic(b: u8) -> bool
    ensures { result ≡ alphabetic b }
{
    b.is_ascii_alphabetic()
}

pub fn is_alphanumeric(b: u8) -> bool
    ensures { result ≡ alphanumeric b }
{
    b.is_ascii_alphanumeric()
}

// Refusals 1 and 2: the sheet's length, then its bytes.
pub fn screen(sheet: &[u8]) -> Result<(), Refusal>
    ensures { result ≡ screened sheet.now }
{
    if sheet.len() > 65536 {
        return Err(Refusal::TooLong);
    }
    if !sheet.iter().all(|b| is_plain(*b)) {
        return Err(Refusal::ForeignByte);
    }
    Ok(())
}

// How often a byte stands in a text. The compiler makes sixteen steps at once of this sum, and none of `filter` with `count`.
pub fn count_of(text: &[u8], b: u8) -> usize
    ensures { result ≡ count_of b text.now }
{
    let mut count = 0;
    for x in text {
        count += usize::from(*x == b);
    }
    count
}
