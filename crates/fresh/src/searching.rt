// The search for a text in the sheet, and for the name of a fresh variable.
ghost use Rattle.std.specs.Prelude.{◌<◌, ◌≤◌, length};
ghost use Rattle.rules.specs.Variants.{fresh_name};
ghost use Rattle.text.specs.Printing.{Printed};
ghost use Rattle.fresh.specs.Searching.{FindsText};

use sheet::{Place, part};
use text::decimal::print;
use tree::names::print_text;

// The first place in the sheet where a text is spelled.
fn find_text(sheet: &[u8], text: &[u8]) -> Option<Place>
    requires { 0 < length text.now }
    ensures { FindsText sheet.now text.now result }
{
    let from = sheet.windows(text.len()).position(|window| window == text)?;
    let to = from + text.len();
    Some(Place { from, to })
}

// Writes the name x<n>:Msg from the front of out on, and returns where it ends. Into lent bytes: there is no heap.
fn print_fresh(n: usize, out: &mut [u8]) -> usize
    requires { 25 ≤ length out.old }
    ensures { Printed out.old out.new 0 (fresh_name n) result }
{
    let first = print_text(out, 0, b"x");
    let end = print(n, out, first);
    print_text(out, end, b":Msg")
}

// The first place in the sheet where x<n>:Msg is spelled.
pub(crate) fn find_fresh(sheet: &[u8], n: usize) -> Option<Place>
    ensures { FindsText sheet.now (fresh_name n) result }
{
    let mut name = [0u8; 32];
    let end = print_fresh(n, &mut name);
    find_text(sheet, part(&name, 0, end))
}
