// The choices for a list of trees of an area, by an index: the first choice varies slowest. Cells of what does not change are used again.
ghost use Rattle.std.specs.Prelude.{◌≡◌, List, ℕ, ◌+◌, ◌<◌};
ghost use Rattle.rules.specs.Bytes.{Text};
ghost use Rattle.rules.specs.Tree.{sizes, count};
ghost use Rattle.rules.specs.Substitution.{Pair, flatten};
ghost use Rattle.tree.specs.Areas.{next_in, tree_in, trees_in, CellIn, HasRoom};
ghost use Rattle.reduction.specs.Areas.{Becomes};
ghost use Rattle.schemes.specs.Choices.{over};
ghost use Rattle.schemes.specs.Areas.{FreshIn};
ghost use Rattle.schemes.specs.Making.{AppendsIn, RootReadyIn, ChosenRootIn, FollowsIn, ReadyIn, ChoosesIn};

use crate::counting::{choices, rule_at};
use crate::firing::{Chosen, Draw, fire};
use reduction::normalizing::stay;
use substitution::instances::keep;
use tree::area::Area;
use tree::kinds::Kind;

// The list from cell x on before the list from cell y on. By recursion: the cells of later trees are made first.
#[tactic(auto, using(crate::proofs::Lining::list_count, crate::proofs::Lining::appends_second, crate::proofs::Lining::appends_first))]
pub(crate) fn append(area: &mut Area, x: usize, y: usize) -> usize
    requires lists { (x < area.old.free) × (y < area.old.free) }
    requires room { HasRoom area.old (count (trees_in area.old x)) }
    ensures { AppendsIn area.old area.new x y result }
{
    if x == 0 {
        return y;
    }
    if y == 0 {
        return x;
    }
    let later = area.next_of(x);
    let rest = append(area, later, y);
    area.share(x, rest)
}

// The tree of cell i with the children from cell first on.
#[tactic(auto, using(crate::proofs::Lining::over_node, crate::proofs::Lining::becomes_as))]
fn unchanged(area: &mut Area, i: usize, first: usize) -> usize
    requires cells { CellIn area.old i × (first < area.old.free) }
    requires small { sizes (trees_in area.old first) < 65535 }
    requires room { HasRoom area.old 1 }
    ensures { Becomes area.old area.new 1 (next_in area.old i) (over (tree_in area.old i) (trees_in area.old first)) result }
{
    match area.kind(i) {
        Kind::Application => {
            let next = area.next_of(i);
            stay(area, i, first, next)
        }
        Kind::Variable(_) | Kind::Atom(_) => i,
    }
}

// The choice at the root of cell i, after those of its children.
fn root(area: &mut Area, i: usize, fresh: usize, below: Chosen) -> Chosen
    requires { RootReadyIn area.old fresh below i }
    ensures { (name : ℕ → Text) → FreshIn area.old fresh name → (es : List Pair) → trees_in area.old below.equations ≡ flatten es → ChosenRootIn area.old area.new name below (over (tree_in area.old i) (trees_in area.old below.values)) es result }
{
    // No `?`: without a rule the root is made of its new children.
    let Some(rule) = rule_at(area, i, below.values) else {
        let values = unchanged(area, i, below.values);
        return Chosen { values, ..below };
    };
    let ways = below.left.ways / choices(Some(rule));
    let choice = below.left.index / ways;
    let index = below.left.index % ways;
    if choice == 0 {
        let values = unchanged(area, i, below.values);
        let left = Draw {
            index,
            ways,
            ..below.left
        };
        return Chosen {
            values,
            left,
            ..below
        };
    }
    let fired = fire(area, rule, choice, fresh, below);
    let left = Draw {
        next: fired.next,
        index,
        ways,
    };
    Chosen {
        values: fired.value,
        equations: fired.equations,
        left,
    }
}

// The value of cell value, with its equations, before the choices for the later trees.
fn join(area: &mut Area, value: usize, equations: usize, rest: Chosen) -> Chosen
    requires cells { CellIn area.old value × (equations < area.old.free) × (rest.values < area.old.free) × (rest.equations < area.old.free) }
    requires room { HasRoom area.old (1 + count (trees_in area.old equations)) }
    ensures { FollowsIn area.old area.new value equations rest result }
{
    let values = keep(area, value, rest.values);
    let equations = append(area, equations, rest.equations);
    Chosen {
        values,
        equations,
        left: rest.left,
    }
}

// The choices for the trees of the list from cell i on. One frame for each node: a term may be 4,096 deep.
pub(crate) fn choose(area: &mut Area, i: usize, fresh: usize, draw: Draw) -> Chosen
    requires { ReadyIn area.old fresh draw i }
    ensures { (name : ℕ → Text) → FreshIn area.old fresh name → ChoosesIn area.old area.new name draw (trees_in area.old i) result }
{
    if i == 0 {
        return Chosen {
            values: 0,
            equations: 0,
            left: draw,
        };
    }
    let first = area.child_of(i);
    let below = choose(area, first, fresh, draw);
    let here = root(area, i, fresh, below);
    let later = area.next_of(i);
    let rest = choose(area, later, fresh, here.left);
    join(area, here.values, here.equations, rest)
}
