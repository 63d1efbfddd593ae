// A rule that fires in an area: its value and its equations, over fresh variables.
ghost use Rattle.std.specs.Prelude.{◌≡◌, List, ◌∷◌, ◌+◌, ◌<◌, Some};
ghost use Rattle.rules.specs.Tree.{more};
ghost use Rattle.rules.specs.Substitution.{Pair, flatten};
ghost use Rattle.rules.specs.Reduction.{two, constant};
ghost use Rattle.rules.specs.Variants.{scheme, firing_count};
ghost use Rattle.tree.specs.Areas.{next_in, tree_in, trees_in, CellIn, HasRoom};
ghost use Rattle.tree.specs.Lists.{Lists};
ghost use Rattle.tree.specs.Names.{fixed_text};
ghost use Rattle.tree.specs.declared.fixed.Fixed.TheVariants.{Pair as pair_name};
ghost use Rattle.substitution.specs.Areas.{PairsIn};
ghost use Rattle.schemes.specs.Areas.{SomeFreshIn};
ghost use Rattle.schemes.specs.Making.{LeafIn, FiredIn, FiresIn};

use crate::patterns::{boxed, plain};
use rules::Rule;
use substitution::pairing::push_pair;
use tree::area::Area;
use tree::fixed::Fixed;

// What choices are made by: the next fresh variable, and what is left of the index and of the number of ways.
#[derive(Clone, Copy, Debug, PartialEq, Eq)]
pub(crate) struct Draw {
    pub(crate) next: usize,
    pub(crate) index: usize,
    pub(crate) ways: usize,
}

// Values and equations, and what is left to choose by.
#[derive(Clone, Copy, Debug, PartialEq, Eq)]
pub(crate) struct Chosen {
    pub(crate) values: usize,
    pub(crate) equations: usize,
    pub(crate) left: Draw,
}

// What a rule makes of a root: the value, the equations and the next fresh variable.
#[derive(Clone, Copy, Debug, PartialEq, Eq)]
pub(crate) struct Fired {
    pub(crate) value: usize,
    pub(crate) equations: usize,
    pub(crate) next: usize,
}

// The list from cell `list` on after the equation of the tree of cell i and the pair of the leaves of cells x and y.
fn split(area: &mut Area, i: usize, x: usize, y: usize, list: usize) -> usize
    requires leaves { LeafIn area.old x × LeafIn area.old y }
    requires cells { CellIn area.old i × (list < area.old.free) }
    requires room { HasRoom area.old 5 }
    ensures lists { Lists area.old area.new result (more (tree_in area.old i) (more (two (fixed_text pair_name) (tree_in area.old x) (tree_in area.old y)) (trees_in area.old list))) }
    ensures end { area.new.free ≡ area.old.free + 5 }
{
    let pair = plain(area, Fixed::Pair, x, y);
    push_pair(area, i, pair, list)
}

// The list from cell `list` on after the equations of the cipher of cell i and its pattern, and of the next cell, its key, and cell y.
fn unseal(area: &mut Area, i: usize, pattern: usize, y: usize, list: usize) -> usize
    requires cells { CellIn area.old i × (0 < next_in area.old i) × CellIn area.old pattern }
    requires others { CellIn area.old y × (list < area.old.free) }
    requires room { HasRoom area.old 4 }
    ensures lists { Lists area.old area.new result (more (tree_in area.old i) (more (tree_in area.old pattern) (more (tree_in area.old (next_in area.old i)) (more (tree_in area.old y) (trees_in area.old list))))) }
    ensures end { area.new.free ≡ area.old.free + 4 }
{
    let key = area.next_of(i);
    let keys = push_pair(area, key, y, list);
    push_pair(area, i, pattern, keys)
}

// Where the one child is the first of two roles, the value is the other one.
#[tactic(auto, using(crate::proofs::Leaves::no_sizes))]
fn flip(area: &mut Area, role: Fixed, other: Fixed, below: Chosen) -> Fired
    requires cells { CellIn area.old below.values × (below.equations < area.old.free) }
    requires pairs { PairsIn area.old below.equations }
    requires room { HasRoom area.old 4 }
    ensures { (es : List Pair) → trees_in area.old below.equations ≡ flatten es → FiredIn area.old area.new (scheme (constant (fixed_text other)) ((tree_in area.old below.values, constant (fixed_text role)) ∷ es) below.left.next) result }
{
    let value = area.push_fixed(other, 0, 0, 1);
    let pattern = area.push_fixed(role, 0, 0, 1);
    let equations = push_pair(area, below.values, pattern, below.equations);
    Fired {
        value,
        equations,
        next: below.left.next,
    }
}

// The choice of a rule at a root, the first or the second of two, after those of its children. The choice is a digit of the scheme's index,
// used in arithmetic: an enum would be made to be matched here. One arm to a rule: no table is plainer.
#[tactic(auto, using(crate::proofs::Lasting::leaf_fresh, crate::proofs::Equating::one_in))]
pub(crate) fn fire(area: &mut Area, rule: Rule, choice: usize, fresh: usize, below: Chosen) -> Fired
    requires fresh { SomeFreshIn area.old fresh × (below.left.next + 1 < 24) }
    requires cells { (below.values < area.old.free) × (below.equations < area.old.free) }
    requires choice { (0 < choice) × (choice < 1 + firing_count (Some rule) (trees_in area.old below.values)) }
    requires pairs { PairsIn area.old below.equations }
    requires room { HasRoom area.old 10 }
    ensures { FiresIn area.old area.new rule choice fresh below result }
{
    let x = fresh + below.left.next;
    let y = fresh + (below.left.next + 1);
    let next = below.left.next + 2;
    match rule {
        Rule::Fst => Fired {
            value: x,
            equations: split(area, below.values, x, y, below.equations),
            next,
        },
        Rule::Snd => Fired {
            value: y,
            equations: split(area, below.values, x, y, below.equations),
            next,
        },
        Rule::Flip => {
            if choice == 1 {
                return flip(area, Fixed::RoleA, Fixed::RoleB, below);
            }
            flip(area, Fixed::RoleB, Fixed::RoleA, below)
        }
        Rule::Sdec => {
            let pattern = plain(area, Fixed::Senc, x, y);
            let equations = unseal(area, below.values, pattern, y, below.equations);
            Fired {
                value: x,
                equations,
                next,
            }
        }
        Rule::Kdec => {
            let pattern = boxed(area, x, y);
            let equations = unseal(area, below.values, pattern, y, below.equations);
            Fired {
                value: x,
                equations,
                next,
            }
        }
    }
}
