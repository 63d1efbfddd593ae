// An answer laid out in pages, in the bytes where it stands: written from left to right, with what is unread always ahead.
#![tactic(auto)]

mod lines; // lines.rt: the lines of a page, written
mod entries; // entries.rt: the lines of an entry, and the heading before them

ghost use Rattle.std.specs.Prelude.{◌≡◌, ◌+◌, ◌-◌, ◌*◌, ◌≤◌, ◌++◌, length, take, drop};
ghost use Rattle.rules.specs.Page.{page, page_count};
ghost use Rattle.laws.specs.Laying.{Columned};
ghost use Rattle.sheet.specs.Lines.{part_of};

use entries::{Place, lay_entry};
use lines::put_blank_lines;

// Lays out the answer that stands from `start` to the end of so many pages.
pub fn lay_out(output: &mut [u8], start: usize, pages: usize)
    requires room { 3650 * pages ≤ length output.old }
    requires start { start ≤ 3650 * pages }
    requires answer { Columned (part_of start (3650 * pages) output.old) }
    requires count { pages ≡ page_count (part_of start (3650 * pages) output.old) }
    ensures { output.new ≡ page (part_of start (3650 * pages) output.old) ++ drop (3650 * pages) output.old }
{
    let end = 3650 * pages;
    let mut place = Place {
        at: 0,
        from: start,
        left: 0,
        number: 1,
    };
    while place.from < end {
        place = lay_entry(output, end, place);
    }
    put_blank_lines(output, place.at, place.left);
}
