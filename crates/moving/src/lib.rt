// One pair of `match`, taken from the stack of an area: pattern variables are bound, subject variables are constants.
#![tactic(auto)]

ghost use Rattle.std.specs.Prelude.{◌+◌, ◌<◌};
ghost use Rattle.rules.specs.Matching.{bound, match_key, match_roots, move};
ghost use Rattle.laws.specs.Memory.{weight};
ghost use Rattle.tree.specs.Areas.{name_in, tree_in};
ghost use Rattle.substitution.specs.Areas.{bindings_in};
ghost use Rattle.elimination.specs.Stack.{Fit};
ghost use Rattle.elimination.specs.Area.{Room};
ghost use Rattle.elimination.specs.Areas.{pairs_in};
ghost use Rattle.elimination.specs.Fronts.{FrontIn, KeyIn, FitFront, load_in, FrontRoom};
ghost use Rattle.moving.specs.Areas.{MadeIn, FitMade, MovesIn};

use elimination::front::Front;
use equivalence::equivalent;
use rules::Ending;
use sorts::sorted;
use steps::roots::take_roots;
use substitution::bindings::lookup;
use substitution::pairing::push_pair;
use sums::striking::Cancelling;
use tree::area::Area;
use tree::kinds::Kind;

// The next stack, and the bindings, the newest first.
#[derive(Clone, Copy, Debug, PartialEq, Eq)]
pub struct Onward {
    pub stack: usize,
    pub bindings: usize,
}

// Takes a pair of which the pattern, on the left, is a variable.
fn match_key(area: &mut Area, front: Front, made: usize) -> Result<Onward, Ending>
    requires front { FrontIn area.old front }
    requires key { KeyIn area.old front }
    requires made { MadeIn area.old made }
    requires fit { Fit (tree_in area.old front.right) × FitMade area.old made }
    requires room { Room area.old.work.now (area.old.free + 2) }
    ensures { MovesIn area.old area.new (weight (pairs_in area.old front.rest)) (match_key (bound (name_in area.old front.left) (bindings_in area.old made)) (name_in area.old front.left) (tree_in area.old front.right) (pairs_in area.old front.rest) (bindings_in area.old made)) result }
{
    let Front { left, right, rest } = front;
    if let Some(old) = lookup(area, made, left) {
        if equivalent(area, old, right) {
            return Ok(Onward {
                stack: rest,
                bindings: made,
            });
        }
        return Err(Ending::Failed);
    }
    let sort = area.sort_of(left).ok_or(Ending::Failed)?;
    if !sorted(area, sort, right) {
        return Err(Ending::Failed);
    }
    let bindings = push_pair(area, left, right, made);
    Ok(Onward {
        stack: rest,
        bindings,
    })
}

// Takes a pair of which the pattern, on the left, is no variable.
#[tactic(auto, using(crate::proofs::MovingInAreas::moves_ended))]
fn match_roots(area: &mut Area, front: Front, made: usize) -> Result<Onward, Ending>
    requires front { FrontIn area.old front }
    requires made { MadeIn area.old made }
    requires fit { FitFront area.old front }
    requires room { FrontRoom area.old front }
    ensures { MovesIn area.old area.new (load_in area.old front + weight (pairs_in area.old front.rest)) (match_roots (tree_in area.old front.left) (tree_in area.old front.right) (pairs_in area.old front.rest) (bindings_in area.old made)) result }
{
    let next = take_roots(area, front, Cancelling::Ground)?;
    Ok(Onward {
        stack: next.stack,
        bindings: made,
    })
}

// Takes the pair of a pattern, on the left, and a subject.
pub fn advance(area: &mut Area, front: Front, made: usize) -> Result<Onward, Ending>
    requires front { FrontIn area.old front }
    requires made { MadeIn area.old made }
    requires fit { FitFront area.old front × FitMade area.old made }
    requires room { FrontRoom area.old front }
    ensures { MovesIn area.old area.new (load_in area.old front + weight (pairs_in area.old front.rest)) (move (tree_in area.old front.left) (tree_in area.old front.right) (pairs_in area.old front.rest) (bindings_in area.old made)) result }
{
    match area.kind(front.left) {
        Kind::Variable(_) => match_key(area, front, made),
        Kind::Application | Kind::Atom(_) => match_roots(area, front, made),
    }
}
