// The pair on top of the stack.
ghost use Rattle.std.specs.Prelude.{◌≡◌, ◌<◌};
ghost use Rattle.tree.specs.Areas.{trees_in};
ghost use Rattle.elimination.specs.Stack.{Whole};
ghost use Rattle.elimination.specs.Areas.{pairs_in};
ghost use Rattle.elimination.specs.Fronts.{turned_front, TopIn};

use tree::area::Area;

// The cells of a pair of trees, and the first of the pairs below it.
#[derive(Clone, Copy, Debug, PartialEq, Eq)]
pub struct Front {
    pub left: usize,
    pub right: usize,
    pub rest: usize,
}

impl Front {
    // The pair on top of those from cell stack on, if there is one.
    pub fn top(area: &Area, stack: usize) -> Option<Front>
        requires { (stack < area.now.free) × Whole (trees_in area.now stack) }
        ensures { TopIn area.now (pairs_in area.now stack) result }
    {
        if stack == 0 {
            return None;
        }
        let right = area.next_of(stack);
        let rest = area.next_of(right);
        Some(Front {
            left: stack,
            right,
            rest,
        })
    }

    // The pair the other way round.
    pub fn turned(self) -> Front
        ensures { result ≡ turned_front self }
    {
        Front {
            left: self.right,
            right: self.left,
            rest: self.rest,
        }
    }
}
