// Variables at places of the sheet as a list of cells of an area.
ghost use Rattle.std.specs.Prelude.{map, ◌+◌, ◌*◌, ◌-◌, ◌<◌, ◌≤◌, ◌^◌, length};
ghost use Rattle.std.proofs.Math.Seq.{slice};
ghost use Rattle.rules.specs.Tree.{variable};
ghost use Rattle.text.specs.Places.{text_at};
ghost use Rattle.tree.specs.Areas.{Pushes, HasRoom};
ghost use Rattle.variables.specs.Variables.{Variable};
ghost use Rattle.variables.specs.Areas.{Listable, ListsVariablesIn};

use crate::gathering::Places;
use leaves::sorts::variable_sort;
use sheet::Place;
use text::places::text_at;
use tree::area::Area;

// Writes the variable at a place before the list at `next`, and answers its cell.
fn push_variable(area: &mut Area, x: u32, next: usize) -> usize
    requires variable { Variable area.old.sheet.now x × (length area.old.sheet.now ≤ 65536) }
    requires link { next < area.old.free }
    requires room { HasRoom area.old 1 }
    ensures { Pushes area.old area.new result next (variable (text_at area.old.sheet.now x)) }
{
    let sort = variable_sort(text_at(area.sheet, x));
    area.push_variable(Place::of(x), sort, next)
}

// The variables at places as a list of cells, the last first. The places stand above these cells.
// The cells are pushed into the area whose words are read: an iterator would hold it.
pub fn list_variables(area: &mut Area, places: Places) -> usize
    requires short { length area.old.sheet.now ≤ 65536 }
    requires places { Listable area.old places }
    requires room { (4 * (area.old.free + (places.to - places.from)) ≤ places.from) × (area.old.free + (places.to - places.from) < 2 ^ 32) }
    ensures { ListsVariablesIn area.old area.new (places.to - places.from) (map (text_at area.old.sheet.now) (slice places.from places.to area.old.work.now)) result }
{
    let Places { from, to } = places;
    let mut list: usize = 0;
    for i in from..to {
        let x = area.work[i];
        list = push_variable(area, x, list);
    }
    list
}
