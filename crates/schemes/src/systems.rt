// The value and the system of a scheme in an area.
ghost use Rattle.std.specs.Prelude.{◌≡◌, ℕ, ◌+◌, ◌*◌, ◌<◌, ◌≤◌};
ghost use Rattle.rules.specs.Bytes.{Text};
ghost use Rattle.rules.specs.Tree.{size};
ghost use Rattle.rules.specs.Variants.{scheme_count};
ghost use Rattle.tree.specs.Areas.{tree_in, CellIn, HasRoom};
ghost use Rattle.schemes.specs.Areas.{FreshIn, SomeFreshIn, SystemIn};

use crate::choosing::{append, choose};
use crate::firing::Draw;
use substitution::pairing::push_pair;
use tree::area::Area;

// The schemes of the tree of cell term, `count` of them: their fresh variables are the cells from `fresh` on.
#[derive(Clone, Copy, Debug, PartialEq, Eq)]
pub struct Schemes {
    pub term: usize,
    pub fresh: usize,
    pub count: usize,
}

// The value of a scheme, and its system as a list of cells (left, right, left, right, ..).
#[derive(Clone, Copy, Debug, PartialEq, Eq)]
pub struct System {
    pub value: usize,
    pub stack: usize,
}

// The scheme of an index.
pub fn system_at(area: &mut Area, schemes: Schemes, index: usize) -> System
    requires fresh { SomeFreshIn area.old schemes.fresh }
    requires term { CellIn area.old schemes.term × (size (tree_in area.old schemes.term) ≤ 4096) }
    requires index { (schemes.count ≡ scheme_count (tree_in area.old schemes.term)) × (schemes.count ≤ 4096) × (index < schemes.count) }
    requires room { HasRoom area.old (2 * size (tree_in area.old schemes.term) + 1024) }
    ensures { (name : ℕ → Text) → FreshIn area.old schemes.fresh name → SystemIn area.old area.new name index (tree_in area.old schemes.term) result }
{
    let term = schemes.term;
    let alone = area.share(term, 0);
    let draw = Draw {
        next: 0,
        index,
        ways: schemes.count,
    };
    let chosen = choose(area, alone, schemes.fresh, draw);
    let last = push_pair(area, chosen.values, chosen.values, 0);
    let both = push_pair(area, term, term, last);
    let stack = append(area, chosen.equations, both);
    System {
        value: chosen.values,
        stack,
    }
}
