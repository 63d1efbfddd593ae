// Kind `cover` over an area: the pairs are unified, and a member is looked for that covers the solution (unifier.rs, `Principal::covered`).
ghost use Rattle.std.specs.Prelude.{◌+◌, ◌*◌, ◌<◌, ◌≤◌, ◌^◌, length};
ghost use Rattle.rules.specs.Tree.{sizes};
ghost use Rattle.tree.specs.Areas.{trees_in};
ghost use Rattle.elimination.specs.Stack.{Whole};
ghost use Rattle.variables.specs.Variables.{ReadableAll};
ghost use Rattle.cover.specs.Areas.{NamesIn, CoverInputIn, ClaimsCoveredIn};

use crate::covering::any_covers;
use sheet::Cursor;
use text::count_of;
use tree::area::Area;
use unifier::unifying::unify_sparing;
use variables::gathering::variables_of;
use variables::listing::list_variables;
use variables::pairing::Solution;

// The variables of the pairs from cell stack on as a list of cells. Their places are written above as many cells as the sheet has bytes.
fn names_of(area: &mut Area, stack: usize) -> usize
    requires stack { (stack < area.old.free) × Whole (trees_in area.old stack) × ReadableAll (trees_in area.old stack) }
    requires few { (sizes (trees_in area.old stack) ≤ length area.old.sheet.now) × (length area.old.sheet.now ≤ 65536) }
    requires room { (4 * (area.old.free + length area.old.sheet.now) + 2 * length area.old.sheet.now ≤ length area.old.work.now) × (area.old.free + length area.old.sheet.now < 2 ^ 32) }
    ensures { NamesIn area.old area.new stack result }
{
    // `fresh::name_variables` has the same two calls, with the base found between them.
    let places = variables_of(area, stack);
    list_variables(area, places)
}

// Whether one of the members from a cursor on covers the solution of the pairs from cell stack on; no claim where they are not solved. The
// words above those that the unification needs are left for the matches.
#[tactic(auto, unfolding(rules::specs::Sheet::words_needed))]
pub fn covered(area: &mut Area, stack: usize, members: Cursor) -> Option<bool>
    requires stack { (stack < area.old.free) × CoverInputIn area.old stack members.at }
    ensures { ClaimsCoveredIn area.old area.new stack members.at result }
{
    let names = names_of(area, stack);
    let nodes = area.nodes_in(stack);
    let colons = count_of(area.sheet, b':');
    let answer = unify_sparing(area, stack, 65536, nodes, colons);
    // No `?`: the wrong program that says no where the pairs are not solved changes only the value returned here.
    let Ok(bindings) = answer.verdict else {
        return None;
    };
    Some(any_covers(area, Solution { names, bindings }, members))
}
