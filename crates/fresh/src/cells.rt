// The fresh variables of `complete` as cells of an area: x, a number from the base on and :Msg where the sheet spells that, else a name
// that no sheet spells.
ghost use Rattle.std.specs.Prelude.{◌<◌, ◌≤◌, ◌^◌, length};
ghost use Rattle.rules.specs.Tree.{variable};
ghost use Rattle.tree.specs.Areas.{Pushes, HasRoom};
ghost use Rattle.fresh.specs.Fresh.{chosen_in};
ghost use Rattle.fresh.specs.Areas.{WritesFreshIn};

use crate::searching::find_fresh;
use rules::Sort;
use tree::area::Area;

// Writes the n-th fresh variable, and answers its cell.
fn push_fresh(area: &mut Area, base: usize, n: usize) -> usize
    requires short { length area.old.sheet.now ≤ 65536 }
    requires small { (n < 24) × (base ≤ 2 ^ 63) }
    requires room { HasRoom area.old 1 }
    ensures { Pushes area.old area.new result 0 (variable (chosen_in area.old.sheet.now base n)) }
{
    let Some(name) = find_fresh(area.sheet, base + n) else {
        return area.push_unspelled(n, 0);
    };
    area.push_variable(name, Some(Sort::Msg), 0)
}

// Writes the 24 fresh variables as new cells, and answers the first of them.
pub fn fresh_cells(area: &mut Area, base: usize) -> usize
    requires short { (length area.old.sheet.now ≤ 65536) × (base ≤ 2 ^ 63) }
    requires room { HasRoom area.old 24 }
    ensures { WritesFreshIn area.old area.new base result }
{
    let first = area.free;
    for n in 0..24 {
        push_fresh(area, base, n);
    }
    first
}
