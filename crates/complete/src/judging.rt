// What the schemes of a term decide, over an area: the system of each is unified, and a member is looked for that generalizes its solution
// and value.
ghost use Rattle.std.specs.Prelude.{◌≡◌, ◌+◌, ◌*◌, ◌<◌, ◌≤◌, length};
ghost use Rattle.laws.specs.Schemes.{pending, answered, judge};
ghost use Rattle.tree.specs.Areas.{tree_in, CellIn, Grows};
ghost use Rattle.substitution.specs.Areas.{bindings_in};
ghost use Rattle.variables.specs.Areas.{names_in};
ghost use Rattle.families.specs.Areas.{variants_in};
ghost use Rattle.reduction.specs.Areas.{InstanceRoom};
ghost use Rattle.complete.specs.Judging.{fuel_for};
ghost use Rattle.complete.specs.Areas.{judged_as, Asks, InstanceMatched, CanJudgeIn, CanJudgeAllIn, JudgesIn, JudgesAllIn};

use equivalence::equivalent;
use families::generalizing::generalized;
use reduction::normalizing::normalize;
use rules::Ending;
use schemes::systems::{Schemes, system_at};
use substitution::instances::substitute;
use tree::area::Area;
use unifier::unifying::unify_sparing;
use variables::pairing::Solution;

// The schemes of a term, with at most `named` names each. The term's variables and the members are the lists from cells `names` and
// `members` on.
#[derive(Clone, Copy, Debug, PartialEq, Eq)]
pub(crate) struct Question {
    pub(crate) schemes: Schemes,
    pub(crate) named: usize,
    pub(crate) names: usize,
    pub(crate) members: usize,
}

// What the schemes so far decide: nothing yet, that one has no member, or that the instance of one is over 4,096 nodes. An Option<bool>
// would stand in the Option of a scheme's answer, and its None would not end the judging as the other does.
#[derive(Clone, Copy, Debug, PartialEq, Eq)]
pub(crate) enum Judged {
    Pending,
    Missing,
    Over,
}

impl Judged {
    // The answer after the last scheme.
    fn claim(self) -> Option<bool>
        ensures { result ≡ answered (judged_as self) }
    {
        match self {
            Judged::Pending => Some(true),
            Judged::Missing => Some(false),
            Judged::Over => None,
        }
    }
}

// A scheme with the value of cell value that is solved by the bindings, while nothing is decided.
fn judge_solved(area: &mut Area, asked: Question, value: usize, bindings: usize) -> Judged
    requires asks { Asks area.old asked }
    requires cells { CellIn area.old value × (bindings < area.old.free) }
    requires room { InstanceRoom area.old }
    requires matched { InstanceMatched area.old asked value bindings }
    ensures value { judged_as result ≡ judge (names_in area.old asked.names) (variants_in area.old asked.members) (bindings_in area.old bindings) (tree_in area.old value) pending }
    ensures grows { Grows area.old area.new }
{
    // No `?`: without an instance the scheme is over, which is an answer.
    let Some(built) = substitute(area, value, bindings, 0, 4096) else {
        return Judged::Over;
    };
    let end = area.free;
    let normal = normalize(area, built.index, 0);
    if !equivalent(area, built.index, normal) {
        return Judged::Pending;
    }
    area.truncate(end);
    let names = asked.names;
    if generalized(
        area,
        asked.members,
        Solution { names, bindings },
        built.index,
    ) {
        return Judged::Pending;
    }
    Judged::Missing
}

// Fuel that no run over so many nodes and names uses up, at most 65,536.
fn enough(nodes: usize, named: usize) -> usize
    requires { nodes + 4096 * named < 4294967296 }
    ensures { result ≡ fuel_for nodes named }
{
    (nodes + 4096 * named + 1).min(65536)
}

// The scheme of an index, after those before it, or None where it is not supported. The words above those that the unification needs are
// left for the matches.
fn judge_scheme(area: &mut Area, asked: Question, index: usize, before: Judged) -> Option<Judged>
    requires asks { Asks area.old asked }
    requires index { index < asked.schemes.count }
    requires can_judge { CanJudgeIn area.old asked index }
    ensures { JudgesIn area.old area.new asked index before result }
{
    let system = system_at(area, asked.schemes, index);
    let nodes = area.nodes_in(system.stack);
    let fuel = enough(nodes, asked.named);
    let answer = unify_sparing(area, system.stack, fuel, nodes, asked.named);
    match answer.verdict {
        Err(Ending::Unsupported) => None,
        Err(Ending::Failed) => Some(before),
        Ok(bindings) => match before {
            Judged::Pending => Some(judge_solved(area, asked, system.value, bindings)),
            Judged::Missing | Judged::Over => Some(before),
        },
    }
}

// All schemes, the first to the last; no claim where one of them is not supported.
pub(crate) fn judge(area: &mut Area, asked: Question) -> Option<bool>
    requires asks { Asks area.old asked }
    requires can_judge { CanJudgeAllIn area.old asked }
    ensures { JudgesAllIn area.old area.new asked result }
{
    let free = area.free;
    let mut state = Judged::Pending;
    // The schemes are numbers, and each pushes cells into the area.
    for i in 0..asked.schemes.count {
        state = judge_scheme(area, asked, i, state)?;
        area.truncate(free);
    }
    state.claim()
}
