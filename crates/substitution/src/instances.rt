// Substitution in an area within a budget of nodes. Cells of what does not change are used again.
ghost use Rattle.std.specs.Prelude.{◌+◌, ◌<◌, ◌≤◌};
ghost use Rattle.tree.specs.Areas.{tree_in, CellIn, HasRoom};
ghost use Rattle.substitution.specs.Areas.{Puts, BuildsTreeIn, BuildsListIn, instance_in, instances_in};

use crate::bindings::image;
use tree::area::Area;
use tree::kinds::Kind;

// The tree of cell i before the list from cell next on: cell i itself, if that is its link, or a new cell.
pub fn keep(area: &mut Area, i: usize, next: usize) -> usize
    requires cells { CellIn area.old i × (next < area.old.free) }
    requires room { HasRoom area.old 1 }
    ensures puts { Puts area.old area.new result next (tree_in area.old i) }
    ensures end { area.new.free ≤ area.old.free + 1 }
{
    if area.next_of(i) == next {
        return i;
    }
    area.share(i, next)
}

// A tree or a list: its cell, and what is left of the budget of nodes.
#[derive(Clone, Copy, Debug, PartialEq, Eq)]
pub struct Built {
    pub index: usize,
    pub budget: usize,
}

// As `keep`, within a budget of nodes.
fn place(area: &mut Area, i: usize, next: usize, budget: usize) -> Option<Built>
    requires cells { CellIn area.old i × (next < area.old.free) }
    requires room { HasRoom area.old budget }
    ensures { BuildsTreeIn area.old area.new budget next (tree_in area.old i) result }
{
    let left = budget.checked_sub(area.count_of(i))?;
    let index = keep(area, i, next);
    Some(Built {
        index,
        budget: left,
    })
}

// The instance of the tree of cell i under the bindings from cell b on, before the list from cell next on.
#[cycle(substitute_substitute_list)]
pub fn substitute(area: &mut Area, i: usize, b: usize, next: usize, budget: usize) -> Option<Built>
    requires cells { CellIn area.old i × (b < area.old.free) × (next < area.old.free) }
    requires room { HasRoom area.old budget }
    requires budget { budget < 65536 }
    ensures { BuildsTreeIn area.old area.new budget next (instance_in area.old b i) result }
{
    match area.kind(i) {
        Kind::Application => {
            let left = budget.checked_sub(1)?;
            let first = area.first_of(i);
            let children = substitute_list(area, first, b, left)?;
            let index = if children.index == first {
                keep(area, i, next)
            } else {
                area.push_like(i, children.index, next, budget - children.budget)
            };
            Some(Built {
                index,
                budget: children.budget,
            })
        }
        Kind::Variable(_) => {
            let value = image(area, b, i);
            place(area, value, next, budget)
        }
        Kind::Atom(_) => place(area, i, next, budget),
    }
}

// The instances of the trees of the list from cell i on. Each has a node, so the rest has one less. By recursion, as the definition is:
// the cells of later trees are made first.
#[cycle(substitute_substitute_list)]
pub(crate) fn substitute_list(area: &mut Area, i: usize, b: usize, budget: usize) -> Option<Built>
    requires links { (i < area.old.free) × (b < area.old.free) }
    requires room { HasRoom area.old budget }
    requires budget { budget < 65536 }
    ensures { BuildsListIn area.old area.new budget (instances_in area.old b i) result }
{
    if i == 0 {
        return Some(Built { index: 0, budget });
    }
    let left = budget.checked_sub(1)?;
    let next = area.next_of(i);
    let rest = substitute_list(area, next, b, left)?;
    substitute(area, i, b, rest.index, rest.budget + 1)
}
