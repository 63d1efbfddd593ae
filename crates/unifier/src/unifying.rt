// `unify` over an area: the pairs and the bindings are lists of its cells.
ghost use Rattle.std.specs.Prelude.{◌≡◌, ◌≤◌};
ghost use Rattle.rules.specs.Tree.{sizes};
ghost use Rattle.rules.specs.Solving.{run, unify};
ghost use Rattle.tree.specs.Areas.{trees_in};
ghost use Rattle.elimination.specs.Area.{Room};
ghost use Rattle.unifier.specs.Running.{Roomy};
ghost use Rattle.elimination.specs.Areas.{pairs_in};
ghost use Rattle.elimination.specs.Fronts.{StackIn};
ghost use Rattle.unifier.specs.Areas.{NamesFew, spared_end, RunsIn, AnswersIn, EndsIn};

use elimination::Taken;
use elimination::front::Front;
use elimination::room::{NAME_CELLS, STEP_WORDS};
use rules::Ending;
use stepping::step;
use substitution::answer::Answer;
use substitution::pairing::push_pair;
use substitution::solving::compose;
use tree::area::Area;

// The run over the pairs from cell stack on: one after another is taken, until none is left or one ends the run. Fuel is counted down:
// `left` is what is left once a pair is taken. The bindings are not composed, the last made first.
// Each step pushes cells into the area, which an iterator over the pairs would hold. `matcher` has a loop like it: a trait for both would
// have to state the invariants of the two and how each starts, goes on and ends, and be longer than they are.
fn run(area: &mut Area, stack: usize, fuel: usize) -> Answer
    requires stack { StackIn area.old stack }
    requires fuel { fuel ≤ 65536 }
    requires room { Roomy area.old.work.now area.old.free fuel (pairs_in area.old stack) }
    ensures { RunsIn area.old area.new (run fuel (pairs_in area.old stack)) result }
{
    let mut waiting = stack;
    let mut made = 0;
    let mut apart = None;
    for left in (0..fuel).rev() {
        let Some(front) = Front::top(area, waiting) else {
            return Answer {
                verdict: Ok(made),
                spent: fuel - left - 1,
            };
        };
        match step(area, front, apart) {
            Ok(Taken::Next(next)) => {
                waiting = next.stack;
                apart = next.apart;
            }
            Ok(
                Taken::Bind {
                    key,
                    value,
                    stack: s,
                },
            ) => {
                waiting = s;
                made = push_pair(area, key, value, made);
                apart = None;
            }
            Err(ending) => {
                return Answer {
                    verdict: Err(ending),
                    spent: fuel - left,
                };
            }
        }
    }
    Answer {
        verdict: Err(Ending::Unsupported),
        spent: fuel,
    }
}

// Unifies the pairs from cell stack on.
pub fn unify(area: &mut Area, stack: usize, fuel: usize) -> Answer
    requires stack { StackIn area.old stack }
    requires fuel { fuel ≤ 65536 }
    requires room { Roomy area.old.work.now area.old.free fuel (pairs_in area.old stack) }
    ensures { AnswersIn area.old area.new (unify fuel (pairs_in area.old stack)) result }
{
    let ran = run(area, stack, fuel);
    let Ok(made) = ran.verdict else {
        return ran;
    };
    Answer {
        verdict: compose(area, made).ok_or(Ending::Unsupported),
        spent: ran.spent,
    }
}

// Unifies the pairs from cell stack on, which have so many nodes and at most so many names, in as many words as that may take: those after
// them are left for what follows.
// The nodes are counted by the caller: complete needs them for its fuel.
pub fn unify_sparing(
    area: &mut Area,
    stack: usize,
    fuel: usize,
    nodes: usize,
    names: usize,
) -> Answer
    requires stack { StackIn area.old stack }
    requires fuel { fuel ≤ 65536 }
    requires counts { (nodes ≡ sizes (trees_in area.old stack)) × NamesFew names (pairs_in area.old stack) }
    requires room { Room area.old.work.now (spared_end area.old.free nodes fuel names) }
    ensures answers { AnswersIn area.old area.new (unify fuel (pairs_in area.old stack)) result }
    ensures ends { EndsIn area.new result.verdict (spared_end area.old.free nodes fuel names) }
{
    let limit = 4 * (area.free + nodes + 2 * fuel + NAME_CELLS * names) + STEP_WORDS;
    // Lent to a variable first: the words that come back of a field have no name that a proof can cite.
    let work = &mut *area.work;
    let (lent, _) = work.split_at_mut(limit);
    let mut part = Area {
        sheet: area.sheet,
        work: lent,
        free: area.free,
    };
    let answer = unify(&mut part, stack, fuel);
    area.free = part.free;
    answer
}
