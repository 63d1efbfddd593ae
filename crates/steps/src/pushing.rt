// The children of two trees of an area, pairwise on the stack, and their number.
ghost use Rattle.std.specs.Prelude.{◌≡◌, ◌+◌, ◌*◌, ◌<◌};
ghost use Rattle.rules.specs.Bytes.{Text};
ghost use Rattle.laws.specs.Memory.{pushed};
ghost use Rattle.tree.specs.Cells.{trees_at};
ghost use Rattle.tree.specs.Arena.{Links};
ghost use Rattle.tree.specs.Areas.{trees_in, HasRoom};
ghost use Rattle.tree.specs.Lists.{Lists};
ghost use Rattle.elimination.specs.Stack.{pushes};
ghost use Rattle.elimination.specs.Differing.{common_count};
ghost use Rattle.steps.specs.Areas.{some_pairs};

use substitution::pairing::push_pair;
use tree::area::Area;

// How many trees the lists from cells left and right on have, if both have as many; else 0. Of words alone: it asks for links that fall,
// and for no trees.
pub fn common_count(work: &[u32], free: usize, left: usize, right: usize) -> usize
    requires links { Links work.now free }
    requires lists { (left < free) × (right < free) }
    ensures { (s : Text) → result ≡ common_count (trees_at s work.now left) (trees_at s work.now right) }
{
    let mut a = left;
    let mut b = right;
    let mut pairs: usize = 0;
    while a != 0 {
        if b == 0 {
            return 0;
        }
        a = work[4 * a + 3] as usize;
        b = work[4 * b + 3] as usize;
        pairs += 1;
    }
    if b != 0 {
        return 0;
    }
    pairs
}

// How many pairs the lists from cells left and right on make, if both are of one length and not empty.
pub(crate) fn paired(area: &Area, left: usize, right: usize) -> Option<usize>
    requires { (left < area.now.free) × (right < area.now.free) }
    ensures { result ≡ some_pairs (common_count (trees_in area.now left) (trees_in area.now right)) }
{
    let pairs = area.list(left).count();
    if pairs == 0 {
        return None;
    }
    (pairs == area.list(right).count()).then_some(pairs)
}

// Puts the trees of the lists from cells left and right on, pairwise as far as both go, before the list from cell `stack` on, and answers
// where that begins. By recursion: the cells of later pairs are made first.
pub(crate) fn push_children(area: &mut Area, left: usize, right: usize, stack: usize) -> usize
    requires links { (left < area.old.free) × (right < area.old.free) × (stack < area.old.free) }
    requires room { HasRoom area.old (2 * pushed (trees_in area.old left) (trees_in area.old right)) }
    ensures lists { Lists area.old area.new result (pushes (trees_in area.old left) (trees_in area.old right) (trees_in area.old stack)) }
    ensures end { area.new.free ≡ area.old.free + 2 * pushed (trees_in area.old left) (trees_in area.old right) }
{
    if left == 0 || right == 0 {
        return stack;
    }
    let next_left = area.next_of(left);
    let next_right = area.next_of(right);
    let below = push_children(area, next_left, next_right, stack);
    push_pair(area, left, right, below)
}
