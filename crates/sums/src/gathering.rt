// The cells of the summands of a tree of an area, written in words.
ghost use Rattle.std.specs.Prelude.{◌+◌, ◌<◌, ◌≤◌, ◌^◌, length};
ghost use Rattle.rules.specs.Tree.{size, sizes};
ghost use Rattle.rules.specs.Sums.{summands, summands_of};
ghost use Rattle.tree.specs.Areas.{tree_in, trees_in, CellIn};
ghost use Rattle.sums.specs.Summands.{CellsWritten};

use flattening::writer::Writer;
use tree::area::Area;

// Writes the cells of the summands of the tree of cell i.
#[cycle(gather_gather_list)]
pub(crate) fn gather(area: &Area, i: usize, out: &mut Writer)
    requires cell { CellIn area.now i × (area.now.free < 2 ^ 32) }
    requires room { out.old.end + size (tree_in area.now i) ≤ length out.old.words.now }
    ensures { CellsWritten area.now out.old out.new (size (tree_in area.now i)) (summands (tree_in area.now i)) }
{
    if area.is_sum(i) {
        gather_list(area, area.first_of(i), out);
    } else {
        out.push(i as u32);
    }
}

// The same of the trees of the list from cell `list` on.
#[cycle(gather_gather_list)]
fn gather_list(area: &Area, list: usize, out: &mut Writer)
    requires link { (list < area.now.free) × (area.now.free < 2 ^ 32) }
    requires room { out.old.end + sizes (trees_in area.now list) ≤ length out.old.words.now }
    ensures { CellsWritten area.now out.old out.new (sizes (trees_in area.now list)) (summands_of (trees_in area.now list)) }
{
    for i in area.list(list) {
        gather(area, i, out);
    }
}
