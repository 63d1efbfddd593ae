// The variables of a term of an area as a list of cells, with one above their indices.
ghost use Rattle.std.specs.Prelude.{◌≡◌, ◌+◌, ◌*◌, ◌<◌, ◌≤◌, ◌^◌, length};
ghost use Rattle.rules.specs.Tree.{size};
ghost use Rattle.tree.specs.Areas.{tree_in, CellIn};
ghost use Rattle.variables.specs.Variables.{Readable};
ghost use Rattle.fresh.specs.Indices.{names_base};
ghost use Rattle.fresh.specs.Areas.{texts_in, NamesTermIn};

use crate::indices::index_of;
use text::places::text_at;
use tree::area::Area;
use variables::gathering::{Places, variables_of};
use variables::listing::list_variables;

// One above every index of the variables at places; None where a variable has no index.
fn base_of(area: &Area, places: Places) -> Option<usize>
    requires { (places.from ≤ places.to) × (places.to ≤ length area.now.work.now) }
    ensures { result ≡ names_base (texts_in area.now places) }
{
    let mut base: usize = 0;
    for x in &area.work[places.from..places.to] {
        let index = index_of(text_at(area.sheet, *x))?;
        base = base.max(index + 1);
    }
    Some(base)
}

// The variables of a term as a list of cells, and one above their indices.
#[derive(Clone, Copy, Debug, PartialEq, Eq)]
pub struct Named {
    pub names: usize,
    pub base: usize,
}

// The variables of the tree of cell term, or None where one of them has no index. Their places are written above as many cells as the sheet
// has bytes.
pub fn name_variables(area: &mut Area, term: usize) -> Option<Named>
    requires term { CellIn area.old term × Readable (tree_in area.old term) }
    requires few { (size (tree_in area.old term) ≤ length area.old.sheet.now) × (length area.old.sheet.now ≤ 65536) }
    requires room { (4 * (area.old.free + 1 + length area.old.sheet.now) + 2 * length area.old.sheet.now ≤ length area.old.work.now) × (area.old.free + 1 + length area.old.sheet.now < 2 ^ 32) }
    ensures { NamesTermIn area.old area.new term result }
{
    let list = area.share(term, 0);
    let places = variables_of(area, list);
    let base = base_of(area, places)?;
    let names = list_variables(area, places);
    Some(Named { names, base })
}
