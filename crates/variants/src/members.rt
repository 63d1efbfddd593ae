// A member's texts as trees of an area: its own, and the values of its keys, with the keys, as one list of bindings.
ghost use Rattle.std.specs.Prelude.{◌≡◌, ◌+◌, ◌<◌, ◌≤◌, length};
ghost use Rattle.forms.specs.Form.{Inside};
ghost use Rattle.tree.specs.Areas.{CellIn, HasRoom, tree_in, trees_in};
ghost use Rattle.tree.specs.Spelled.{text_in};
ghost use Rattle.reading.specs.Areas.{ReaderRoomIn, TextsRoomIn};
ghost use Rattle.substitution.specs.Areas.{Lists};
ghost use Rattle.variants.specs.Members.{nameable, binding_before, entry_end, DistinctEntries, MemberThere};
ghost use Rattle.variants.specs.Areas.{ReadsEntryIn, ReadsEntriesIn, ReadsMemberIn};

use leaves::sorts::variable_sort;
use reading::parse;
use sheet::{Cursor, Place, Read, Sides, next_entry, next_member};
use tree::area::Area;

// A member: the cell of its tree, its bindings, and where it ends.
#[derive(Clone, Copy, Debug, PartialEq, Eq)]
pub struct Variant {
    pub value: usize,
    pub bindings: usize,
    pub next: Cursor,
}

// Whether a variable's cell may have a text for its name: it is not empty, and no atom's text.
fn is_nameable(text: &[u8]) -> bool
    ensures { result ≡ nameable text.now }
{
    !matches!(text, [] | [_, b'(', ..])
}

// Puts a key and the tree of cell value before the list from cell `list` on. A key that no variable can have is left out.
fn push_entry(area: &mut Area, key: Place, value: usize, list: usize) -> usize
    requires key { Inside area.old.sheet.now key × (length area.old.sheet.now ≤ 65536) }
    requires cells { CellIn area.old value × (list < area.old.free) }
    requires room { HasRoom area.old 2 }
    ensures lists { Lists area.old area.new result (binding_before (text_in area.old key) (tree_in area.old value) (trees_in area.old list)) }
    ensures end { area.new.free ≤ area.old.free + 2 }
{
    let name = key.text(area.sheet);
    if !is_nameable(name) {
        return list;
    }
    let sort = variable_sort(name);
    let rest = area.share(value, list);
    area.push_variable(key, sort, rest)
}

// Reads the value of a key, and puts both before the list from cell `list` on.
fn read_entry(area: &mut Area, entry: Sides, list: usize) -> Option<usize>
    requires inside { Inside area.old.sheet.now entry.left × Inside area.old.sheet.now entry.right × (list < area.old.free) }
    requires room { ReaderRoomIn area.old (entry_end area.old.free entry.right) }
    ensures { ReadsEntryIn area.old area.new entry list result }
{
    let value = parse(area, entry.right)?;
    Some(push_entry(area, entry.left, value, list))
}

// The entries of a member from a cursor on as bindings, the last first.
fn read_entries(area: &mut Area, start: Cursor) -> Option<Read<usize>>
    requires room { (start.at ≤ length area.old.sheet.now) × TextsRoomIn area.old start.at }
    requires entries_there { DistinctEntries area.old.sheet.now start.at }
    ensures { ReadsEntriesIn area.old area.new start.at result }
{
    // Along a cursor by value, with an area that grows: one trait for this walk and those of pairs and values would be no plainer.
    let mut next = start;
    let mut bindings = 0;
    while let Some(entry) = next_entry(area.sheet, next) {
        bindings = read_entry(area, entry.value, bindings)?;
        next = entry.next;
    }
    Some(Read {
        value: bindings,
        next,
    })
}

// The member whose line is at the cursor, if its texts can be read.
pub fn read_member(area: &mut Area, start: Cursor) -> Option<Variant>
    requires room { TextsRoomIn area.old start.at }
    requires member_there { MemberThere area.old.sheet.now start.at }
    ensures { ReadsMemberIn area.old area.new start.at result }
{
    let line = next_member(area.sheet, start)?;
    let value = parse(area, line.value)?;
    let entries = read_entries(area, line.next)?;
    Some(Variant {
        value,
        bindings: entries.value,
        next: entries.next,
    })
}
