// Whether one member covers, and whether one of the members does, over an area (unifier.rs, `Principal::covered`).
ghost use Rattle.std.specs.Prelude.{◌≤◌, length};
ghost use Rattle.variables.specs.Areas.{SolutionIn};
ghost use Rattle.values.specs.Areas.{PairsRoomIn};
ghost use Rattle.cover.specs.Areas.{MatchableIn, AllMatchableIn, PassesMemberIn, CoversAnyIn};

use matching::matcher;
use rules::Ending;
use sheet::{Cursor, next_member};
use tree::area::Area;
use values::members::pair_member;
use variables::pairing::Solution;

// Where the member with the entries from a cursor on ends, or None where it covers: its trees at the variables of a solution are not found
// to differ from those of the solution. A match takes at most one pair for each node of the member's trees.
// An enum of the two would be matched once.
fn pass_member(area: &mut Area, solution: Solution, start: Cursor) -> Option<Cursor>
    requires solution { SolutionIn area.old solution }
    requires start { (start.at ≤ length area.old.sheet.now) × (length area.old.sheet.now ≤ 65536) }
    requires room { PairsRoomIn area.old solution.names }
    requires matchable { MatchableIn area.old solution start.at }
    ensures { PassesMemberIn area.old area.new solution start.at result }
{
    let pairs = pair_member(area, solution, start)?;
    let fuel = area.sheet.len();
    let answer = matcher(area, pairs.value, fuel);
    let failed = answer.verdict == Err(Ending::Failed);
    failed.then_some(pairs.next)
}

// Whether one of the members from a cursor on covers.
pub(crate) fn any_covers(area: &mut Area, solution: Solution, start: Cursor) -> bool
    requires solution { SolutionIn area.old solution }
    requires start { (start.at ≤ length area.old.sheet.now) × (length area.old.sheet.now ≤ 65536) }
    requires room { PairsRoomIn area.old solution.names }
    requires matchable { AllMatchableIn area.old solution start.at }
    ensures { CoversAnyIn area.old area.new solution start.at result }
{
    let free = area.free;
    let mut cursor = start;
    // Lines here, cells in families: the two walks share the match alone. Each match pushes cells into the area.
    while let Some(line) = next_member(area.sheet, cursor) {
        let Some(next) = pass_member(area, solution, line.next) else {
            return true;
        };
        area.truncate(free);
        cursor = next;
    }
    false
}
