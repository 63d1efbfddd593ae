// Whether any variable occurs in a tree of an area.
// The test of a tree is inlined into that of lists: the compiler then makes a jump of its last call.
ghost use Rattle.std.specs.Prelude.{◌≡◌, ◌<◌};
ghost use Rattle.rules.specs.Tree.{ground, grounds};
ghost use Rattle.tree.specs.Areas.{tree_in, trees_in, CellIn};

use tree::area::Area;
use tree::kinds::Kind;

// Whether no variable occurs in the tree of cell i.
#[tactic(auto, using(crate::proofs::Searching::ground_by_kind, tree::proofs::Walks::children_fall))]
#[cycle(ground_grounds)]
#[inline(always)]
pub fn ground(area: &Area, i: usize) -> bool
    requires { CellIn area.now i }
    ensures { result ≡ ground (tree_in area.now i) }
{
    match area.kind(i) {
        Kind::Application => grounds(area, area.first_of(i)),
        Kind::Variable(_) => false,
        Kind::Atom(_) => true,
    }
}

// Whether no variable occurs in the list from cell i on.
#[tactic(auto, using(tree::proofs::Walks::first_falls))]
#[cycle(ground_grounds)]
fn grounds(area: &Area, i: usize) -> bool
    requires { i < area.now.free }
    ensures { result ≡ grounds (trees_in area.now i) }
{
    if i == 0 {
        return true;
    }
    let next = area.next_of(i);
    if next == 0 {
        return ground(area, i);
    }
    ground(area, i) && grounds(area, next)
}
