// The pairs of trees that two lists of bindings of an area give variables.
ghost use Rattle.std.specs.Prelude.{◌*◌, ◌<◌};
ghost use Rattle.rules.specs.Tree.{count};
ghost use Rattle.tree.specs.Areas.{trees_in, HasRoom};
ghost use Rattle.variables.specs.Areas.{SolutionIn, ValuesPairedIn};

use substitution::bindings::image;
use substitution::pairing::push_pair;
use tree::area::Area;

// What pairs are solved by: their variables and the bindings of these, as lists of cells.
#[derive(Clone, Copy, Debug, PartialEq, Eq)]
pub struct Solution {
    pub names: usize,
    pub bindings: usize,
}

// The pairs of a solution's variables, the last of them first, before the list from cell `rest` on. The left sides are the trees that the
// bindings from cell `values` on give them, the right ones those of the solution's bindings.
pub fn pair_values(area: &mut Area, values: usize, solution: Solution, rest: usize) -> usize
    requires links { (values < area.old.free) × (rest < area.old.free) }
    requires solution { SolutionIn area.old solution }
    requires room { HasRoom area.old (2 * count (trees_in area.old solution.names)) }
    ensures { ValuesPairedIn area.old area.new values solution rest result }
{
    // The cells are pushed into the area that is walked: an iterator would hold it.
    let mut k = solution.names;
    let mut list = rest;
    while k != 0 {
        let left = image(area, values, k);
        let right = image(area, solution.bindings, k);
        list = push_pair(area, left, right, list);
        k = area.next_of(k);
    }
    list
}
