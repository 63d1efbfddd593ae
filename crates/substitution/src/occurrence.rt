// Whether a variable occurs in a tree of an area.
// The test of a tree is inlined into that of lists: the compiler then makes a jump of its last call.
ghost use Rattle.std.specs.Prelude.{◌≡◌, ◌<◌};
ghost use Rattle.rules.specs.Tree.{occurs, occurs_in};
ghost use Rattle.tree.specs.Areas.{name_in, tree_in, trees_in, CellIn};

use tree::area::Area;
use tree::kinds::Kind;

// Whether the variable with the name of cell key occurs in the tree of cell i.
#[tactic(auto, using(crate::proofs::Searching::occurs_by_kind, tree::proofs::Walks::children_fall))]
#[cycle(occurs_occurs_in)]
#[inline(always)]
pub fn occurs(area: &Area, key: usize, i: usize) -> bool
    requires key_cell { CellIn area.now key }
    requires i_cell { CellIn area.now i }
    ensures { result ≡ occurs (name_in area.now key) (tree_in area.now i) }
{
    match area.kind(i) {
        Kind::Application => occurs_in(area, key, area.first_of(i)),
        Kind::Variable(_) => area.same_name(i, key),
        Kind::Atom(_) => false,
    }
}

// Whether it occurs in the list from cell i on.
#[tactic(auto, using(tree::proofs::Walks::first_falls))]
#[cycle(occurs_occurs_in)]
fn occurs_in(area: &Area, key: usize, i: usize) -> bool
    requires key_cell { CellIn area.now key }
    requires i_link { i < area.now.free }
    ensures { result ≡ occurs_in (name_in area.now key) (trees_in area.now i) }
{
    if i == 0 {
        return false;
    }
    let next = area.next_of(i);
    if next == 0 {
        return occurs(area, key, i);
    }
    occurs(area, key, i) || occurs_in(area, key, next)
}
