// What a cell of an area holds. Links are numbers, 0 for none, as they are handed on to what pushes cells (listing.rt).
ghost use Rattle.std.specs.Prelude.{◌≡◌, ◌+◌, ◌<◌, ◌≤◌, MatchOption, length};
ghost use Rattle.rules.specs.Bytes.{same};
ghost use Rattle.rules.specs.Tree.{children, head};
ghost use Rattle.text.specs.Printing.{Printed};
ghost use Rattle.tree.specs.Cells.{length_of};
ghost use Rattle.tree.specs.Names.{name_text};
ghost use Rattle.tree.specs.Areas.{cell_kind, count_in, first_in, next_in, name_in, tree_in, trees_in, sort_of, sum_in, CellIn};
ghost use Rattle.tree.specs.declared.kinds.Kind.TheVariants.{Application};

use crate::area::Area;
use crate::cells;
use crate::fixed::{Fixed, UNSPELLED};
use crate::kinds::Kind;
use crate::names::Name;
use rules::{SUM, Sort};

impl Area<'_, '_> {
    // The kind of cell k.
    pub fn kind(&self, k: usize) -> Kind
        requires { CellIn self.now k }
        ensures { result ≡ cell_kind self.now k }
    {
        Kind::of(cells::kind_of(self.work, k))
    }

    // The sort of the variable of cell k, if it is one and has a sort.
    pub fn sort_of(&self, k: usize) -> Option<Sort>
        requires { CellIn self.now k }
        ensures { result ≡ sort_of (tree_in self.now k) }
    {
        match self.kind(k) {
            Kind::Variable(sort) => sort,
            Kind::Application | Kind::Atom(_) => None,
        }
    }

    // Whether the tree of cell k is a sum.
    #[tactic(auto, using(crate::proofs::ByKind::sum_by_kind))]
    pub fn is_sum(&self, k: usize) -> bool
        requires { CellIn self.now k }
        ensures { result ≡ sum_in (tree_in self.now k) }
    {
        match self.kind(k) {
            Kind::Application => self.name_is(k, SUM),
            Kind::Variable(_) | Kind::Atom(_) => false,
        }
    }

    // The count of nodes of the tree of cell k.
    pub fn count_of(&self, k: usize) -> usize
        requires { CellIn self.now k }
        ensures count { result ≡ count_in self.now k }
        ensures small { result < 65536 }
    {
        cells::count_of(self.work, k)
    }

    // The first child of cell k, 0 for none.
    pub fn first_of(&self, k: usize) -> usize
        requires { CellIn self.now k }
        ensures first { result ≡ first_in self.now k }
        ensures below { result < k }
    {
        self.work[4 * k + 2] as usize
    }

    // The next sibling of cell k, 0 for none.
    pub fn next_of(&self, k: usize) -> usize
        requires { CellIn self.now k }
        ensures next { result ≡ next_in self.now k }
        ensures below { result < k }
    {
        self.work[4 * k + 3] as usize
    }

    // The first child of cell k, 0 for a leaf and for none.
    pub fn child_of(&self, k: usize) -> usize
        requires { CellIn self.now k }
        ensures children { trees_in self.now result ≡ children (tree_in self.now k) }
        ensures below { result < k }
        ensures first { cell_kind self.now k ≡ Application → result ≡ first_in self.now k }
        ensures application { 0 < result → cell_kind self.now k ≡ Application }
    {
        match self.kind(k) {
            Kind::Application => self.first_of(k),
            Kind::Variable(_) | Kind::Atom(_) => 0,
        }
    }

    // The name of cell k, a text of the sheet, or None where it is another.
    pub fn spelled(&self, k: usize) -> Option<&[u8]>
        requires { CellIn self.now k }
        ensures { MatchOption result (length_of self.now.work.now k ≡ 0) (λ n. n.now ≡ name_in self.now k) }
    {
        let start = cells::start_of(self.work, k);
        let len = cells::length_of(self.work, k);
        if len == 0 {
            return None;
        }
        Some(&self.sheet[start..start + len])
    }

    // The name of cell k.
    pub(crate) fn name(&self, k: usize) -> Name<'_>
        requires { CellIn self.now k }
        ensures { name_text result ≡ name_in self.now k }
    {
        if let Some(text) = self.spelled(k) {
            return Name::Spelled(text);
        }
        let code = cells::start_of(self.work, k);
        match Fixed::of(code) {
            Some(name) => Name::Fixed(name),
            None => Name::Unspelled((code - UNSPELLED) as u8),
        }
    }

    // The length of the name of cell k.
    pub fn name_len(&self, k: usize) -> usize
        requires { CellIn self.now k }
        ensures len { result ≡ length (name_in self.now k) }
        ensures small { result < 131072 }
    {
        self.name(k).len()
    }

    // Whether the name of cell k is a text.
    pub fn name_is(&self, k: usize, text: &[u8]) -> bool
        requires { CellIn self.now k }
        ensures { result ≡ same (name_in self.now k) text.now }
    {
        self.name(k).is(text)
    }

    // Writes the name of cell k at a place of an output, and answers where it ends.
    pub fn print_name(&self, k: usize, out: &mut [u8], at: usize) -> usize
        requires k_cell { CellIn self.now k }
        requires room { at + length (name_in self.now k) ≤ length out.old }
        ensures { Printed out.old out.new at (name_in self.now k) result }
    {
        self.name(k).print(out, at)
    }

    // Whether cells i and j have one name. They have where they have one place or one code.
    pub fn same_name(&self, i: usize, j: usize) -> bool
        requires i_cell { CellIn self.now i }
        requires j_cell { CellIn self.now j }
        ensures { result ≡ same (name_in self.now i) (name_in self.now j) }
    {
        if self.work[4 * i] == self.work[4 * j] {
            return true;
        }
        if let Some(text) = self.spelled(j) {
            return self.name_is(i, text);
        }
        // No is_some_and: what its closure answers would have to be said in a clause once more.
        match self.spelled(i) {
            Some(text) => self.name_is(j, text),
            None => false,
        }
    }

    // Whether the trees of cells i and j have one head. An atom has the head of no other kind of tree.
    pub fn same_head(&self, i: usize, j: usize) -> bool
        requires i_cell { CellIn self.now i }
        requires j_cell { CellIn self.now j }
        ensures { result ≡ same (head (tree_in self.now i)) (head (tree_in self.now j)) }
    {
        let left = self.kind(i).letter();
        let right = self.kind(j).letter();
        if left != right {
            return false;
        }
        self.same_name(i, j)
    }
}
