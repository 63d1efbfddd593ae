// The values of a member's entries whose keys are variables of the pairs, as bindings in an area.
ghost use Rattle.std.specs.Prelude.{◌+◌, ◌*◌, ◌-◌, ◌<◌, ◌≤◌, ◌^◌, length};
ghost use Rattle.tree.specs.Areas.{trees_in};
ghost use Rattle.reading.specs.Parsing.{stack_end};
ghost use Rattle.forms.specs.Form.{Inside};
ghost use Rattle.forms.specs.Members.{EntriesThere};
ghost use Rattle.variables.specs.Pairing.{names_of};
ghost use Rattle.variables.specs.Areas.{VariablesIn};
ghost use Rattle.values.specs.Areas.{FindsVariableIn, ReadsValueIn, ReadsValuesIn};

use reading::parse;
use sheet::{Cursor, Read, Sides, next_entry};
use substitution::bindings::lookup;
use substitution::pairing::push_pair;
use tree::area::Area;

// The cell of the variable of the list from cell `names` on that has a name.
fn find_variable(area: &Area, names: usize, name: &[u8]) -> Option<usize>
    requires { VariablesIn area.now names }
    ensures { FindsVariableIn area.now (names_of (trees_in area.now names)) name.now result }
{
    area.list(names).find(|k| area.name_is(*k, name))
}

// Puts the value of an entry before the bindings from cell `list` on, if its key is one of the variables and not bound yet. None for a
// value that cannot be read.
fn read_value(area: &mut Area, names: usize, entry: Sides, list: usize) -> Option<usize>
    requires names { VariablesIn area.old names }
    requires link { list < area.old.free }
    requires inside { Inside area.old.sheet.now entry.left × Inside area.old.sheet.now entry.right × (length area.old.sheet.now ≤ 65536) }
    requires room { (stack_end area.old.free entry.right.from entry.right.to + 8 ≤ length area.old.work.now) × (area.old.free + 2 * (entry.right.to - entry.right.from) + 2 < 2 ^ 32) }
    ensures { ReadsValueIn area.old area.new (names_of (trees_in area.old names)) entry.left entry.right list result }
{
    let key = entry.left.text(area.sheet);
    let Some(x) = find_variable(area, names, key) else {
        return Some(list);
    };
    if lookup(area, list, x).is_some() {
        return Some(list);
    }
    let value = parse(area, entry.right)?;
    Some(push_pair(area, x, value, list))
}

// The values of the entries from a cursor on, those whose keys are variables of the list from cell `names` on, as bindings. None where one
// of them cannot be read.
pub(crate) fn read_values(area: &mut Area, names: usize, start: Cursor) -> Option<Read<usize>>
    requires names { VariablesIn area.old names }
    requires start { (start.at ≤ length area.old.sheet.now) × (length area.old.sheet.now ≤ 65536) }
    requires room { (4 * area.old.free + 11 * length area.old.sheet.now + 9 ≤ length area.old.work.now) × (area.old.free + 2 * length area.old.sheet.now + 2 < 2 ^ 32) }
    requires entries_there { EntriesThere area.old.sheet.now start.at }
    ensures { ReadsValuesIn area.old area.new (names_of (trees_in area.old names)) start.at result }
{
    // Along a cursor by value, with an area that grows: one trait for this walk and those of pairs and variants would be no plainer.
    let mut cursor = start;
    let mut bindings: usize = 0;
    while let Some(entry) = next_entry(area.sheet, cursor) {
        bindings = read_value(area, names, entry.value, bindings)?;
        cursor = entry.next;
    }
    Some(Read {
        value: bindings,
        next: cursor,
    })
}
