// The pairs of lines `left`, `right` of a sheet as one list of trees of an area: left, right, left, right, ..
#![tactic(auto)]

ghost use Rattle.std.specs.Prelude.{◌<◌, ◌≤◌, length};
ghost use Rattle.forms.specs.Form.{Inside};
ghost use Rattle.reading.specs.Areas.{ReaderRoomIn, TextsRoomIn};
ghost use Rattle.pairs.specs.Pairs.{pair_end, PairsThere};
ghost use Rattle.pairs.specs.Areas.{ReadsPairIn, ReadsReversedIn, ReadsInOrder};

use reading::parse;
use sheet::{Cursor, Read, Sides, next_pair};
use substitution::pairing::push_pair;
use tree::area::Area;

// Reads both sides of a pair, and puts the right one and then the left one before the list from cell `list` on.
fn read_pair(area: &mut Area, pair: Sides, list: usize) -> Option<usize>
    requires inside { Inside area.old.sheet.now pair.left × Inside area.old.sheet.now pair.right × (list < area.old.free) }
    requires room { ReaderRoomIn area.old (pair_end area.old.free pair.left pair.right) }
    ensures { ReadsPairIn area.old area.new pair list result }
{
    let left = parse(area, pair.left)?;
    let right = parse(area, pair.right)?;
    Some(push_pair(area, right, left, list))
}

// The pairs from a cursor on as one list, the last first, each with its right side first.
fn read_reversed(area: &mut Area, start: Cursor) -> Option<Read<usize>>
    requires room { (start.at ≤ length area.old.sheet.now) × TextsRoomIn area.old start.at }
    requires pairs_there { PairsThere area.old.sheet.now start.at }
    ensures { ReadsReversedIn area.old area.new start.at result }
{
    // Along a cursor by value, with an area that grows: one trait for this walk and those of values and variants would be no plainer.
    let mut next = start;
    let mut stack = 0;
    while let Some(pair) = next_pair(area.sheet, next) {
        stack = read_pair(area, pair.value, stack)?;
        next = pair.next;
    }
    Some(Read { value: stack, next })
}

// The pairs from a cursor on as one list in their order, each with its left side first, if every side can be read.
pub fn read_in_order(area: &mut Area, start: Cursor) -> Option<Read<usize>>
    requires room { (start.at ≤ length area.old.sheet.now) × TextsRoomIn area.old start.at }
    requires pairs_there { PairsThere area.old.sheet.now start.at }
    ensures { ReadsInOrder area.old area.new start.at result }
{
    let reversed = read_reversed(area, start)?;
    Some(Read {
        value: area.reversed(reversed.value),
        next: reversed.next,
    })
}
