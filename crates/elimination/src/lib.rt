// A variable against a tree of an area: bound, turned round, or refused.
#![tactic(auto)]

pub mod front; // front.rt: the pair on top of the stack
pub mod room; // room.rt: the room that steps need

ghost use Rattle.rules.specs.Solving.{bind_into, swap_key, eliminate};
ghost use Rattle.tree.specs.Areas.{name_in, tree_in};
ghost use Rattle.elimination.specs.Area.{Room};
ghost use Rattle.elimination.specs.Areas.{pairs_in, TakenIn};
ghost use Rattle.elimination.specs.Fronts.{FrontIn, KeyIn};

use crate::front::Front;
use rules::{Ending, Sort};
use sorts::{refinable, sorted};
use substitution::occurrence::occurs;
use substitution::solving::bind_into;
use tree::area::Area;

// The next stack.
#[derive(Clone, Copy, Debug, PartialEq, Eq)]
pub struct Next {
    pub stack: usize,
    // One of the first so many pairs of the stack has two different trees, if that is known.
    pub apart: Option<usize>,
}

// What a step makes of a pair: the next stack, or a binding and the next stack.
#[derive(Clone, Copy, Debug, PartialEq, Eq)]
pub enum Taken {
    Next(Next),
    Bind {
        key: usize,
        value: usize,
        stack: usize,
    },
}

// Binds the left tree, a variable, to the right one.
fn bind(area: &mut Area, front: Front) -> Result<Taken, Ending>
    requires front { FrontIn area.old front }
    requires key { KeyIn area.old front }
    requires room { Room area.old.work.now area.old.free }
    ensures { TakenIn area.old area.new 0 (bind_into (name_in area.old front.left) (tree_in area.old front.right) (pairs_in area.old front.rest)) result }
{
    let Front { left, right, rest } = front;
    let stack = bind_into(area, left, right, rest).ok_or(Ending::Unsupported)?;
    Ok(Taken::Bind {
        key: left,
        value: right,
        stack,
    })
}

// Where the right tree does not have the sort of the left one, a variable: a variable on the right is bound to the left tree, if that has
// its sort.
fn swap(area: &mut Area, front: Front, sort: Sort) -> Result<Taken, Ending>
    requires front { FrontIn area.old front }
    requires key { KeyIn area.old front }
    requires room { Room area.old.work.now area.old.free }
    ensures { TakenIn area.old area.new 0 (swap_key sort (name_in area.old front.left) (tree_in area.old front.right) (pairs_in area.old front.rest)) result }
{
    match area.sort_of(front.right) {
        Some(own) if sorted(area, own, front.left) => bind(area, front.turned()),
        _ if refinable(area, sort, front.right) => Err(Ending::Unsupported),
        _ => Err(Ending::Failed),
    }
}

// Eliminates the left tree, a variable, by the right one.
pub fn eliminate(area: &mut Area, front: Front) -> Result<Taken, Ending>
    requires front { FrontIn area.old front }
    requires key { KeyIn area.old front }
    requires room { Room area.old.work.now area.old.free }
    ensures { TakenIn area.old area.new 0 (eliminate (name_in area.old front.left) (tree_in area.old front.right) (pairs_in area.old front.rest)) result }
{
    let sort = area.sort_of(front.left).ok_or(Ending::Unsupported)?;
    if occurs(area, front.left, front.right) {
        return Err(Ending::Failed);
    }
    if sorted(area, sort, front.right) {
        return bind(area, front);
    }
    swap(area, front, sort)
}
