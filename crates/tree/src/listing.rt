// Lists of an area, each by its first cell, 0 for the empty one, as the words hold them: an Option would be turned back at each push.
ghost use Rattle.std.specs.Prelude.{◌≡◌, ◌+◌, ◌<◌, ◌^◌};
ghost use Rattle.rules.specs.Tree.{none, more, apply, count, size, sizes};
ghost use Rattle.tree.specs.Areas.{tree_in, trees_in, CellIn, HasRoom};
ghost use Rattle.tree.specs.Names.{fixed_text};
ghost use Rattle.tree.specs.Lists.{back, cells_from, cells_left, Lists};

use crate::area::Area;
use crate::fixed::Fixed;
use crate::iter::Cells;

impl Area<'_, '_> {
    // The cells of the list from cell `first` on.
    pub fn list(&self, first: usize) -> Cells<'_>
        requires { first < self.now.free }
        ensures { cells_left result ≡ cells_from self.now first }
    {
        Cells {
            area: self,
            cell: first,
        }
    }

    // The number of nodes of the list from cell `list` on, however many cells it has: the counts summed along it.
    pub fn nodes_in(&self, list: usize) -> usize
        requires { (list < self.now.free) × (sizes (trees_in self.now list) < 2 ^ 64) }
        ensures { result ≡ sizes (trees_in self.now list) }
    {
        self.list(list).map(|k| self.count_of(k)).sum()
    }

    // Writes the application of a fixed name to the tree of cell x and the list at `rest`, before the list at `next`, and answers its cell.
    #[tactic(auto, using(crate::proofs::Keeping::pushed_inside, crate::proofs::Lists::shared_sizes))]
    pub fn push_over(&mut self, name: Fixed, x: usize, rest: usize, next: usize) -> usize
        requires cells { CellIn self.old x × (rest < self.old.free) × (next < self.old.free) }
        requires small { size (tree_in self.old x) + sizes (trees_in self.old rest) < 65535 }
        requires room { HasRoom self.old 2 }
        ensures lists { Lists self.old self.new result (more (apply (fixed_text name) (more (tree_in self.old x) (trees_in self.old rest))) (trees_in self.old next)) }
        ensures end { self.new.free ≡ self.old.free + 2 }
    {
        let first = self.share(x, rest);
        self.push_fixed(name, first, next, 1 + self.nodes_in(first))
    }

    // Writes the trees of a list once more, the last first, and answers the first of their cells. The cells are pushed into the area that is
    // walked: an iterator would hold it.
    pub fn reversed(&mut self, list: usize) -> usize
        requires list { list < self.old.free }
        requires room { HasRoom self.old (count (trees_in self.old list)) }
        ensures lists { Lists self.old self.new result (back (trees_in self.old list) none) }
        ensures end { self.new.free ≡ self.old.free + count (trees_in self.old list) }
    {
        let mut first = 0;
        let mut k = list;
        while k != 0 {
            let next = self.next_of(k);
            first = self.share(k, first);
            k = next;
        }
        first
    }
}
