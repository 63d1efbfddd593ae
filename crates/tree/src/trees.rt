// Walks over the trees of an area: one function for a tree and one for a list, as the definitions have it.
ghost use Rattle.std.specs.Prelude.{◌≡◌, ◌<◌};
ghost use Rattle.rules.specs.Tree.{same_tree, same_trees, sizes};
ghost use Rattle.tree.specs.Areas.{tree_in, trees_in, CellIn};

use crate::area::Area;
use crate::kinds::Kind;

impl Area<'_, '_> {
    // Whether the trees of cells i and j are one.
    #[cycle(same_tree_same_trees)]
    pub fn same_tree(&self, i: usize, j: usize) -> bool
        requires i_cell { CellIn self.now i }
        requires j_cell { CellIn self.now j }
        ensures { result ≡ same_tree (tree_in self.now i) (tree_in self.now j) }
    {
        let kind = self.kind(i);
        if kind != self.kind(j) {
            return false;
        }
        match kind {
            Kind::Application => {
                self.same_name(i, j) && self.same_trees(self.first_of(i), self.first_of(j))
            }
            Kind::Variable(_) | Kind::Atom(_) => self.same_name(i, j),
        }
    }

    // Whether the lists from cells i and j on are one.
    #[cycle(same_tree_same_trees)]
    fn same_trees(&self, i: usize, j: usize) -> bool
        requires { (i < self.now.free) × (j < self.now.free) }
        ensures { result ≡ same_trees (trees_in self.now i) (trees_in self.now j) }
    {
        if i == 0 {
            return j == 0;
        }
        if j == 0 {
            return false;
        }
        self.same_tree(i, j) && self.same_trees(self.next_of(i), self.next_of(j))
    }

    // The number of nodes of the list from cell `list` on, by the counts of its cells. It is asked of the children of terms, which have at
    // most 4,096 nodes in all; a list that may have more cells is counted by `nodes_in`.
    pub fn nodes_below(&self, list: usize) -> usize
        requires list { list < self.now.free }
        requires small { sizes (trees_in self.now list) < 65535 }
        ensures { result ≡ sizes (trees_in self.now list) }
    {
        if list == 0 {
            return 0;
        }
        self.count_of(list) + self.nodes_below(self.next_of(list))
    }
}
