// Matching of trees of an area (unifier.rs, `matcher`): pattern variables are bound, subject variables are constants. The pairs and the
// bindings are lists of its cells.
#![tactic(auto)]

ghost use Rattle.std.specs.Prelude.{◌+◌, ◌*◌, ◌≤◌};
ghost use Rattle.rules.specs.Matching.{matcher};
ghost use Rattle.laws.specs.Memory.{weight};
ghost use Rattle.elimination.specs.Area.{Room};
ghost use Rattle.elimination.specs.Areas.{pairs_in};
ghost use Rattle.elimination.specs.Fronts.{StackIn};
ghost use Rattle.unifier.specs.Areas.{AnswersIn};

use elimination::front::Front;
use moving::advance;
use rules::Ending;
use substitution::answer::Answer;
use tree::area::Area;

// Matches the pairs from cell stack on: the left sides are patterns, the right ones subjects. Fuel is counted down: `left` is what is left
// once a pair is taken.
// Each step pushes cells into the area, which an iterator over the pairs would hold.
pub fn matcher(area: &mut Area, stack: usize, fuel: usize) -> Answer
    requires stack { StackIn area.old stack }
    requires fuel { fuel ≤ 65536 }
    requires room { Room area.old.work.now (area.old.free + weight (pairs_in area.old stack) + 2 * fuel) }
    ensures { AnswersIn area.old area.new (matcher fuel (pairs_in area.old stack)) result }
{
    let mut waiting = stack;
    let mut made = 0;
    for left in (0..fuel).rev() {
        let Some(front) = Front::top(area, waiting) else {
            return Answer {
                verdict: Ok(made),
                spent: fuel - left - 1,
            };
        };
        match advance(area, front, made) {
            Ok(onward) => {
                waiting = onward.stack;
                made = onward.bindings;
            }
            Err(ending) => {
                return Answer {
                    verdict: Err(ending),
                    spent: fuel - left,
                };
            }
        }
    }
    Answer {
        verdict: Err(Ending::Unsupported),
        spent: fuel,
    }
}
