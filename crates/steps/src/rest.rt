// What is left of two sums of an area when their summands have cancelled.
ghost use Rattle.std.specs.Prelude.{◌≡◌, true, ℕ, ◌<◌, ◌≤◌, length, get_or};
ghost use Rattle.rules.specs.Solving.{cancel_sums};
ghost use Rattle.laws.specs.Memory.{kept_summands};
ghost use Rattle.tree.specs.Areas.{tree_in, sum_in, CellIn};
ghost use Rattle.sums.specs.Summands.{every_cancels, test_of};
ghost use Rattle.sums.specs.Areas.{remaining_in};
ghost use Rattle.elimination.specs.Stack.{Fit};
ghost use Rattle.elimination.specs.Area.{Room};
ghost use Rattle.steps.specs.Resting.{Several};
ghost use Rattle.steps.specs.Areas.{LeftIn, SummableIn, RestIn, RemainderIn};

use rules::Ending;
use sums::striking::Cancelling;
use sums::{Summands, prepare, rebuild};
use tree::area::Area;

// The first two of the cells in the words from `at` to `end` that are not taken out. Those are 0, in lent words.
fn first_two(area: &Area, at: usize, end: usize) -> (Option<usize>, Option<usize>)
    requires words { (at ≤ end) × (end ≤ length area.now.work.now) }
    requires cells { (p : ℕ) → at ≤ p → p < end → get_or area.now.work.now p 0 < area.now.free }
    ensures { LeftIn area.now (remaining_in area.now at end) result.0 result.1 }
{
    let words = &area.work[at..end];
    let mut left = words
        .iter()
        .filter(|word| **word != 0)
        .map(|word| *word as usize);
    let first = left.next();
    (first, left.next())
}

// Two trees that are to be paired.
#[derive(Clone, Copy, Debug, PartialEq, Eq)]
pub struct Equation {
    pub left: usize,
    pub right: usize,
}

// Several summands are left of the left sum. Only where every summand cancels is one on the right paired with them.
fn rest_of_several(
    area: &mut Area,
    like: usize,
    split: Summands,
    cancelling: Cancelling,
) -> Result<Option<Equation>, Ending>
    requires like_cell { CellIn area.old like × (sum_in (tree_in area.old like) ≡ true) }
    requires left { SummableIn area.old split.at split.mid }
    requires right { SummableIn area.old split.mid split.end }
    requires several { Several (remaining_in area.old split.at split.mid) }
    ensures { RemainderIn area.old area.new cancelling (remaining_in area.old split.at split.mid) (remaining_in area.old split.mid split.end) result }
{
    let (first, second) = first_two(area, split.mid, split.end);
    match (cancelling, first, second) {
        (_, None, _) => Err(Ending::Failed),
        (Cancelling::Every, Some(right), None) => {
            let left = rebuild(area, like, split.at, split.mid).ok_or(Ending::Failed)?;
            Ok(Some(Equation { left, right }))
        }
        (Cancelling::Ground, Some(_), None) | (_, Some(_), Some(_)) => Err(Ending::Unsupported),
    }
}

// What the summands that are left of two sums come to: nothing, or two trees to be paired. The cell like is a sum.
fn settle(
    area: &mut Area,
    like: usize,
    split: Summands,
    cancelling: Cancelling,
) -> Result<Option<Equation>, Ending>
    requires like_cell { CellIn area.old like × (sum_in (tree_in area.old like) ≡ true) }
    requires left { SummableIn area.old split.at split.mid }
    requires right { SummableIn area.old split.mid split.end }
    ensures { RemainderIn area.old area.new cancelling (remaining_in area.old split.at split.mid) (remaining_in area.old split.mid split.end) result }
{
    match first_two(area, split.at, split.mid) {
        (None, _) => match first_two(area, split.mid, split.end) {
            (None, _) => Ok(None),
            (Some(_), _) => Err(Ending::Failed),
        },
        (Some(left), None) => {
            let right = rebuild(area, like, split.mid, split.end).ok_or(Ending::Failed)?;
            Ok(Some(Equation { left, right }))
        }
        (Some(_), Some(_)) => rest_of_several(area, like, split, cancelling),
    }
}

// What is left of the sums of cells left and right. The words above the cells are scratch; where it ends a run no cell is written.
pub fn rest_of(
    area: &mut Area,
    left: usize,
    right: usize,
    cancelling: Cancelling,
) -> Result<Option<Equation>, Ending>
    requires cells { CellIn area.old left × CellIn area.old right }
    requires sums { (sum_in (tree_in area.old left) ≡ true) × (sum_in (tree_in area.old right) ≡ true) }
    requires fit { Fit (tree_in area.old left) × Fit (tree_in area.old right) }
    requires room { Room area.old.work.now area.old.free }
    ensures { RestIn area.old area.new (kept_summands (test_of cancelling) (tree_in area.old left) (tree_in area.old right)) (cancel_sums (every_cancels cancelling) (test_of cancelling) (tree_in area.old left) (tree_in area.old right)) result }
{
    let split = prepare(area, left, right, cancelling);
    settle(area, left, split, cancelling)
}
