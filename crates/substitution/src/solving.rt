// A binding put into the waiting pairs of an area, and the bindings composed.
ghost use Rattle.std.specs.Prelude.{◌≡◌, List, ◌*◌, ◌<◌, length};
ghost use Rattle.rules.specs.Substitution.{Pair, flatten};
ghost use Rattle.tree.specs.Areas.{name_in, tree_in, trees_in, CellIn, HasRoom};
ghost use Rattle.substitution.specs.Bindings.{Chain};
ghost use Rattle.substitution.specs.Areas.{bindings_in, PairsIn, BindsInArea, ComposesIn};

use crate::instances::{substitute, substitute_list};
use crate::pairing::push_pair;
use tree::area::Area;

// Puts the tree of cell value for the name of cell key into the waiting pairs, 4,096 nodes in all, and answers where they begin, or
// None for more nodes. The pairs are the list from cell stack on: left, right, left, right, ..
pub fn bind_into(area: &mut Area, key: usize, value: usize, stack: usize) -> Option<usize>
    requires cells { CellIn area.old key × CellIn area.old value × (stack < area.old.free) }
    requires room { HasRoom area.old 4098 }
    requires pairs { PairsIn area.old stack }
    ensures { (ps : List Pair) → trees_in area.old stack ≡ flatten ps → BindsInArea area.old area.new (name_in area.old key) (tree_in area.old value) ps result }
{
    let one = push_pair(area, key, value, 0);
    let built = substitute_list(area, stack, one, 4096)?;
    Some(built.index)
}

// Composes the bindings from cell made on, the last made first: those composed so far are put into each value, 4,096 nodes, and it
// goes before them. None for a value of more nodes. The cells are pushed into the area that is walked: an iterator would hold it.
pub fn compose(area: &mut Area, made: usize) -> Option<usize>
    requires chain { (made < area.old.free) × Chain (trees_in area.old made) }
    requires room { HasRoom area.old (4097 * length (bindings_in area.old made)) }
    ensures { ComposesIn area.old area.new (bindings_in area.old made) result }
{
    let mut left = made;
    let mut composed = 0;
    while left != 0 {
        let value = area.next_of(left);
        let rest = area.next_of(value);
        let built = substitute(area, value, composed, composed, 4096)?;
        composed = area.share(left, built.index);
        left = rest;
    }
    Some(composed)
}
