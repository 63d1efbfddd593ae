// Whether a member generalizes the solution of a scheme and its value, over an area (variants.rs, `complete`).
ghost use Rattle.std.specs.Prelude.{◌≡◌, ◌<◌, ◌≤◌, length};
ghost use Rattle.rules.specs.Cover.{covering};
ghost use Rattle.rules.specs.Variants.{generalized};
ghost use Rattle.tree.specs.Areas.{tree_in, CellIn, Grows};
ghost use Rattle.substitution.specs.Areas.{bindings_in};
ghost use Rattle.variables.specs.Areas.{names_in, SolutionIn};
ghost use Rattle.families.specs.Generalizing.{IsMember};
ghost use Rattle.families.specs.Areas.{variants_in, general_pairs_in, MatchedIn, AllMatchedIn};

use matching::matcher;
use rules::Ending;
use substitution::pairing::push_pair;
use tree::area::Area;
use variables::pairing::{Solution, pair_values};

// Whether the trees that the member of a cell gives the variables of a solution, and its own, are not found to differ from those of the
// solution and the tree of cell value. A match takes at most one pair for each node of the member's trees.
fn generalizes(area: &mut Area, member: usize, solution: Solution, value: usize) -> bool
    requires cells { CellIn area.old member × CellIn area.old value }
    requires short { length area.old.sheet.now ≤ 65536 }
    requires member { IsMember (tree_in area.old member) }
    requires solution { SolutionIn area.old solution }
    requires matched { MatchedIn area.old member solution value }
    ensures value { result ≡ covering (general_pairs_in area.old member solution value) }
    ensures grows { Grows area.old area.new }
{
    let own = area.first_of(member);
    let entries = area.next_of(own);
    let last = push_pair(area, own, value, 0);
    let pairs = pair_values(area, entries, solution, last);
    let fuel = area.sheet.len();
    let answer = matcher(area, pairs, fuel);
    answer.verdict != Err(Ending::Failed)
}

// Whether one of the members of the list from cell `members` on does.
pub fn generalized(area: &mut Area, members: usize, solution: Solution, value: usize) -> bool
    requires cells { (members < area.old.free) × CellIn area.old value }
    requires short { length area.old.sheet.now ≤ 65536 }
    requires solution { SolutionIn area.old solution }
    requires all_matched { AllMatchedIn area.old members solution value }
    ensures value { result ≡ generalized (names_in area.old solution.names) (variants_in area.old members) (bindings_in area.old solution.bindings) (tree_in area.old value) }
    ensures grows { Grows area.old area.new }
{
    let free = area.free;
    let mut k = members;
    // The match pushes cells into the area that is walked: an iterator over its cells would hold it.
    while k != 0 {
        if generalizes(area, k, solution, value) {
            return true;
        }
        area.truncate(free);
        k = area.next_of(k);
    }
    false
}
