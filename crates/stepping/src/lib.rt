// One pair of `unify`, taken from the stack of an area.
#![tactic(auto)]

ghost use Rattle.std.specs.Prelude.{◌≡◌, false, Some, ◌∷◌, ◌+◌, ◌<◌};
ghost use Rattle.rules.specs.Tree.{same_tree};
ghost use Rattle.rules.specs.Sorts.{sort_refuted};
ghost use Rattle.rules.specs.Solving.{decompose, step};
ghost use Rattle.laws.specs.Memory.{weight};
ghost use Rattle.tree.specs.Areas.{tree_in, CellIn};
ghost use Rattle.elimination.specs.Areas.{pairs_in, ApartIn, TakenIn};
ghost use Rattle.elimination.specs.Fronts.{FrontIn, FitFront, load_in, FrontRoom};

use elimination::front::Front;
use elimination::{Next, Taken, eliminate};
use rules::{Ending, Sort};
use sorts::{natural, refinable};
use steps::roots::take_roots;
use sums::striking::Cancelling;
use tree::area::Area;
use tree::kinds::Kind;

// Whether one of the trees of cells left and right is always natural and the other can never be.
#[tactic(auto, unfolding(rules::specs::Sorts::sort_refuted))]
fn refuted(area: &Area, left: usize, right: usize) -> bool
    requires { CellIn area.now left × CellIn area.now right }
    ensures { result ≡ sort_refuted (tree_in area.now left) (tree_in area.now right) }
{
    (!refinable(area, Sort::TamNat, left) && natural(area, right))
        || (!refinable(area, Sort::TamNat, right) && natural(area, left))
}

// Takes a pair of different trees, neither of which is a variable.
fn decompose(area: &mut Area, front: Front) -> Result<Taken, Ending>
    requires front { FrontIn area.old front }
    requires fit { FitFront area.old front }
    requires room { FrontRoom area.old front }
    requires differ { same_tree (tree_in area.old front.left) (tree_in area.old front.right) ≡ false }
    ensures { TakenIn area.old area.new (load_in area.old front + weight (pairs_in area.old front.rest)) (decompose (tree_in area.old front.left) (tree_in area.old front.right) (pairs_in area.old front.rest)) result }
{
    let rooted = take_roots(area, front, Cancelling::Every);
    if rooted == Err(Ending::Unsupported) && refuted(area, front.left, front.right) {
        return Err(Ending::Failed);
    }
    rooted.map(Taken::Next)
}

// Whether the two trees are equal. If `apart` is 1, they are known to differ.
fn same_pair(area: &Area, front: Front, apart: Option<usize>) -> bool
    requires front { FrontIn area.now front }
    requires apart { apart ≡ Some 1 → same_tree (tree_in area.now front.left) (tree_in area.now front.right) ≡ false }
    ensures { result ≡ same_tree (tree_in area.now front.left) (tree_in area.now front.right) }
{
    apart != Some(1) && area.same_tree(front.left, front.right)
}

// Takes the pair on top of the stack. If `apart` is known, one of the first so many pairs has two different trees; this pair is the first.
pub fn step(area: &mut Area, front: Front, apart: Option<usize>) -> Result<Taken, Ending>
    requires front { FrontIn area.old front }
    requires fit { FitFront area.old front }
    requires room { FrontRoom area.old front }
    requires differing { ApartIn apart ((tree_in area.old front.left, tree_in area.old front.right) ∷ pairs_in area.old front.rest) }
    ensures { TakenIn area.old area.new (load_in area.old front + weight (pairs_in area.old front.rest)) (step (tree_in area.old front.left) (tree_in area.old front.right) (pairs_in area.old front.rest)) result }
{
    if same_pair(area, front, apart) {
        return Ok(Taken::Next(Next {
            stack: front.rest,
            apart: apart.map(|pairs| pairs - 1),
        }));
    }
    match (area.kind(front.left), area.kind(front.right)) {
        (Kind::Variable(_), _) => eliminate(area, front),
        (_, Kind::Variable(_)) => eliminate(area, front.turned()),
        _ => decompose(area, front),
    }
}
