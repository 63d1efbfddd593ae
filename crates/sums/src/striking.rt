// The cells of two sums whose trees cancel are struck out: they become 0, in lent words, where an Option has no place.
ghost use Rattle.std.specs.Prelude.{◌≡◌, ◌||◌, ◌+◌, ◌*◌, ◌<◌, ◌≤◌, length};
ghost use Rattle.rules.specs.Tree.{ground};
ghost use Rattle.tree.specs.Areas.{tree_in, CellIn};
ghost use Rattle.sums.specs.Summands.{AreCells, heft_in, TextsIn, TextFits, TextIs, every_cancels, StrikesOne, Strikes, StrikesCells};

use crate::texts::{Texts, describe, find};
use substitution::ground::ground;
use tree::area::Area;

// Which summands of the left sum cancel: every one, as in `unify`, or those without variables, as in `match`. All else of sums is the same
// for both.
#[derive(Clone, Copy, Debug, PartialEq, Eq)]
pub enum Cancelling {
    Every,
    Ground,
}

impl Cancelling {
    // Whether the tree of cell i may cancel.
    fn admits(self, area: &Area, i: usize) -> bool
        requires { CellIn area.now i }
        ensures { result ≡ every_cancels self || ground (tree_in area.now i) }
    {
        match self {
            Cancelling::Every => true,
            Cancelling::Ground => ground(area, i),
        }
    }
}

// Strikes out the left cell of text p and the first right cell whose tree is equal to its own, if it may cancel and there is one. The texts
// of the right cells are those from `first` on.
fn strike_one(
    area: &Area,
    texts: Texts,
    left: &mut u32,
    p: usize,
    rights: &mut [u32],
    first: usize,
    cancelling: Cancelling,
)
    requires cell { CellIn area.now left.old }
    requires text { TextFits area.now.sheet.now texts.starts.now texts.words.now p × TextIs area.now.sheet.now texts.starts.now texts.words.now p (tree_in area.now left.old) }
    requires texts { TextsIn area.now rights.old first texts.starts.now texts.words.now }
    requires marks { first + length rights.old ≤ length texts.words.now }
    ensures { StrikesOne area.now left.old rights.old left.new rights.new cancelling }
{
    if !cancelling.admits(area, *left as usize) {
        return;
    }
    if let Some(k) = find(area, texts, p, rights, first) {
        *left = 0;
        rights[k] = 0;
    }
}

// The same of each left cell.
fn strike_each(
    area: &Area,
    texts: Texts,
    lefts: &mut [u32],
    rights: &mut [u32],
    cancelling: Cancelling,
)
    requires cells { AreCells area.now lefts.old }
    requires texts { TextsIn area.now lefts.old 0 texts.starts.now texts.words.now × TextsIn area.now rights.old (length lefts.old) texts.starts.now texts.words.now }
    requires marks { length lefts.old + length rights.old ≤ length texts.words.now }
    ensures { Strikes area.now lefts.old rights.old lefts.new rights.new cancelling }
{
    let first = lefts.len();
    for (p, left) in lefts.iter_mut().enumerate() {
        strike_one(area, texts, left, p, rights, first, cancelling);
    }
}

// Strikes out the cells of summands that cancel: the left ones are the first mid. Sixteen words for each node, and two, are scratch.
// The cells of both are one slice, since their texts are numbered through.
pub(crate) fn strike(
    area: &Area,
    cells: &mut [u32],
    mid: usize,
    scratch: &mut [u32],
    cancelling: Cancelling,
)
    requires cells { AreCells area.now cells.old × (mid ≤ length cells.old) }
    requires small { 5 * heft_in area.now cells.old < 65536 }
    requires room { length cells.old + 15 * heft_in area.now cells.old + 2 ≤ length scratch.old }
    ensures { StrikesCells area.now cells.old cells.new mid cancelling }
{
    let (starts, words) = scratch.split_at_mut(cells.len() + 1);
    describe(area, cells, starts, words);
    let (lefts, rights) = cells.split_at_mut(mid);
    strike_each(area, Texts { starts, words }, lefts, rights, cancelling);
}
