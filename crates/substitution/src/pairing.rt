// Pairs of trees put before a list.
ghost use Rattle.std.specs.Prelude.{◌≡◌, ◌+◌, ◌<◌};
ghost use Rattle.rules.specs.Tree.{more};
ghost use Rattle.tree.specs.Areas.{tree_in, trees_in, CellIn, HasRoom};
ghost use Rattle.substitution.specs.Areas.{Lists};

use tree::area::Area;

// Puts the trees of cells left and right before the list from cell `list` on, and answers where the list begins.
pub fn push_pair(area: &mut Area, left: usize, right: usize, list: usize) -> usize
    requires cells { CellIn area.old left × CellIn area.old right × (list < area.old.free) }
    requires room { HasRoom area.old 2 }
    ensures lists { Lists area.old area.new result (more (tree_in area.old left) (more (tree_in area.old right) (trees_in area.old list))) }
    ensures end { area.new.free ≡ area.old.free + 2 }
{
    let second = area.share(right, list);
    area.share(left, second)
}
