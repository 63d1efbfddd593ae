// Sums in an area: their summands in the words above the cells, cancelled, and the sum of what is left.
#![tactic(auto)]

mod gathering; // gathering.rt: the cells of summands
pub mod striking; // striking.rt: summands that cancel
mod texts; // texts.rt: their canonical texts

ghost use Rattle.std.specs.Prelude.{◌≡◌, true, ℕ, ◌+◌, ◌-◌, ◌*◌, ◌<◌, ◌≤◌, ◌^◌, length, get_or};
ghost use Rattle.rules.specs.Tree.{size, plus};
ghost use Rattle.tree.specs.Areas.{next_in, tree_in, sum_in, CellIn, HasRoom};
ghost use Rattle.sums.specs.Sums.{heavy};
ghost use Rattle.sums.specs.Summands.{every_cancels};
ghost use Rattle.sums.specs.Areas.{remaining_in, CancelsIn, PreparedAt, Prepared, AddsSum, Summed};

use crate::gathering::gather;
use crate::striking::{Cancelling, strike};
use flattening::writer::Writer;
use tree::area::Area;

// Where the cells of the summands of two sums start, where those of the second start, and where they end. A cell that is taken out is 0.
// Positions in lent words: there is no heap for lists of cells, and a slice would hold the area that `rebuild` pushes into.
#[derive(Clone, Copy, Debug, PartialEq, Eq)]
pub struct Summands {
    pub at: usize,
    pub mid: usize,
    pub end: usize,
}

// The cells of the summands of two trees from the start of the words on, cancelled: where those of the second start, and where they end.
fn cancel_in(
    area: &Area,
    left: usize,
    right: usize,
    words: &mut [u32],
    cancelling: Cancelling,
) -> (usize, usize)
    requires cells { CellIn area.now left × CellIn area.now right × (area.now.free < 2 ^ 32) }
    requires small { 5 * (size (tree_in area.now left) + size (tree_in area.now right)) < 65536 }
    requires room { 17 * (size (tree_in area.now left) + size (tree_in area.now right)) + 2 ≤ length words.old }
    ensures { CancelsIn area.now words.new result.0 result.1 (size (tree_in area.now left) + size (tree_in area.now right)) (tree_in area.now left) (tree_in area.now right) cancelling }
{
    let mut out = Writer { words, end: 0 };
    gather(area, left, &mut out);
    let mid = out.end;
    gather(area, right, &mut out);
    let Writer { words, end } = out;
    let (cells, scratch) = words.split_at_mut(end);
    strike(area, cells, mid, scratch, cancelling);
    (mid, end)
}

// Gathers the cells of the summands of the trees of cells left and right from `at` on, and cancels them. Seventeen words for each node of
// the two, and two, are scratch.
pub fn prepare_at(
    area: &mut Area,
    left: usize,
    right: usize,
    at: usize,
    cancelling: Cancelling,
) -> Summands
    requires cells { CellIn area.old left × CellIn area.old right × (area.old.free < 2 ^ 32) }
    requires small { 5 * (size (tree_in area.old left) + size (tree_in area.old right)) < 65536 }
    requires room { (4 * area.old.free ≤ at) × (at + 17 * (size (tree_in area.old left) + size (tree_in area.old right)) + 2 ≤ length area.old.work.now) }
    ensures { PreparedAt area.old area.new result at (size (tree_in area.old left) + size (tree_in area.old right)) (tree_in area.old left) (tree_in area.old right) (every_cancels cancelling) }
{
    let nodes = area.count_of(left) + area.count_of(right);
    // Tried on area.work itself: the words that come back have no name that a proof can cite.
    let work = &mut *area.work;
    let (cells, words) = work.split_at_mut(at);
    let trees = Area {
        sheet: area.sheet,
        work: cells,
        free: area.free,
    };
    let (mid, end) = cancel_in(
        &trees,
        left,
        right,
        &mut words[..17 * nodes + 2],
        cancelling,
    );
    Summands {
        at,
        mid: at + mid,
        end: at + end,
    }
}

// The same above the cells, with room for two cells for each node below them.
pub fn prepare(area: &mut Area, left: usize, right: usize, cancelling: Cancelling) -> Summands
    requires cells { CellIn area.old left × CellIn area.old right × (area.old.free < 2 ^ 32) }
    requires small { 5 * (size (tree_in area.old left) + size (tree_in area.old right)) < 65536 }
    requires room { 4 * area.old.free + 25 * (size (tree_in area.old left) + size (tree_in area.old right)) + 2 ≤ length area.old.work.now }
    ensures { Prepared area.old area.new result (size (tree_in area.old left) + size (tree_in area.old right)) (tree_in area.old left) (tree_in area.old right) (every_cancels cancelling) }
{
    let nodes = area.count_of(left) + area.count_of(right);
    let at = 4 * (area.free + 2 * nodes);
    prepare_at(area, left, right, at, cancelling)
}

// Writes the sum of the trees of cells a and b, and answers its cell. The cell like is a sum; b has no next sibling.
fn add(area: &mut Area, like: usize, a: usize, b: usize) -> usize
    requires like_cell { CellIn area.old like × (sum_in (tree_in area.old like) ≡ true) }
    requires cells { CellIn area.old a × CellIn area.old b × (next_in area.old b ≡ 0) }
    requires room { HasRoom area.old 2 }
    requires small { size (tree_in area.old a) + size (tree_in area.old b) + 1 < 65536 }
    ensures { AddsSum area.old area.new result (plus (tree_in area.old a) (tree_in area.old b)) }
{
    let nodes = area.count_of(a) + area.count_of(b) + 1;
    let first = area.share(a, b);
    area.push_like(like, first, 0, nodes)
}

// The right-nested sum of the cells in the words from `at` to `end` that are not taken out, if there are any. The cell like is a sum.
// Cells are pushed into the area whose words are read: an iterator would hold it.
pub fn rebuild(area: &mut Area, like: usize, at: usize, end: usize) -> Option<usize>
    requires like_cell { CellIn area.old like × (sum_in (tree_in area.old like) ≡ true) }
    requires words { (at ≤ end) × (end ≤ length area.old.work.now) × (4 * (area.old.free + 2 * (end - at)) ≤ at) × (area.old.free + 2 * (end - at) < 2 ^ 32) }
    requires cells { (p : ℕ) → at ≤ p → p < end → get_or area.old.work.now p 0 < area.old.free }
    requires small { heavy (remaining_in area.old at end) ≤ 65535 }
    ensures { Summed area.old area.new (remaining_in area.old at end) result }
{
    let mut sum = None;
    for k in (at..end).rev() {
        let cell = area.word(k);
        if cell != 0 {
            sum = Some(match sum {
                None => area.share(cell, 0),
                Some(rest) => add(area, like, cell, rest),
            });
        }
    }
    sum
}
