// Trees with fixed names, at the free end of an area.
ghost use Rattle.std.specs.Prelude.{◌≡◌, ◌+◌, ◌<◌};
ghost use Rattle.rules.specs.Tree.{apply, more, size, sizes};
ghost use Rattle.rules.specs.Reduction.{two, kem};
ghost use Rattle.tree.specs.Areas.{tree_in, trees_in, CellIn, HasRoom};
ghost use Rattle.tree.specs.Names.{fixed_text};
ghost use Rattle.substitution.specs.Areas.{Puts};
ghost use Rattle.schemes.specs.Making.{LeafIn};

use tree::area::Area;
use tree::fixed::Fixed;

// The name over the tree of cell x and the list from cell rest on.
fn over(area: &mut Area, name: Fixed, x: usize, rest: usize) -> usize
    requires x_cell { CellIn area.old x × (rest < area.old.free) }
    requires small { size (tree_in area.old x) + sizes (trees_in area.old rest) < 65535 }
    requires room { HasRoom area.old 2 }
    ensures puts { Puts area.old area.new result 0 (apply (fixed_text name) (more (tree_in area.old x) (trees_in area.old rest))) }
    ensures end { area.new.free ≡ area.old.free + 2 }
{
    area.push_over(name, x, rest, 0)
}

// The name over the leaves of cells x and y.
#[tactic(auto, using(crate::proofs::Leaves::alone, crate::proofs::Leaves::pair_sizes, crate::proofs::Leaves::two_puts))]
pub(crate) fn plain(area: &mut Area, name: Fixed, x: usize, y: usize) -> usize
    requires leaves { LeafIn area.old x × LeafIn area.old y }
    requires room { HasRoom area.old 3 }
    ensures puts { Puts area.old area.new result 0 (two (fixed_text name) (tree_in area.old x) (tree_in area.old y)) }
    ensures end { area.new.free ≡ area.old.free + 3 }
{
    let last = area.share(y, 0);
    over(area, name, x, last)
}

// `tamXCkem` over the leaf of cell x and `tamXCpk` of that of cell y.
#[tactic(auto, using(crate::proofs::Leaves::alone_put, crate::proofs::Leaves::pair_sizes, crate::proofs::Leaves::two_puts, crate::proofs::Leaves::leaf_size, crate::proofs::Leaves::key_size, crate::proofs::Leaves::key_puts))]
pub(crate) fn boxed(area: &mut Area, x: usize, y: usize) -> usize
    requires leaves { LeafIn area.old x × LeafIn area.old y }
    requires room { HasRoom area.old 4 }
    ensures puts { Puts area.old area.new result 0 (kem (tree_in area.old x) (tree_in area.old y)) }
    ensures end { area.new.free ≡ area.old.free + 4 }
{
    let last = over(area, Fixed::Pk, y, 0);
    over(area, Fixed::Kem, x, last)
}
