// Equality of trees of an area up to order and grouping of sums (unifier.rs, `equivalent`).
#![tactic(auto)]

pub mod words; // words.rt: the words of a tree

ghost use Rattle.std.specs.Prelude.{◌≡◌, ◌+◌, ◌*◌, ◌<◌, ◌≤◌, length};
ghost use Rattle.rules.specs.Tree.{size};
ghost use Rattle.rules.specs.Sums.{equivalent};
ghost use Rattle.tree.specs.Areas.{tree_in, KeepsCells, CellIn};
ghost use Rattle.text.specs.Frames.{Outside};

use crate::words::{one_text, tree_words};
use flattening::writer::Writer;
use tree::area::Area;

// Whether the canonical texts of the trees of cells i and j are one. The words, fifteen for each node of the two, are scratch.
fn same_canonical(area: &Area, i: usize, j: usize, words: &mut [u32]) -> bool
    requires cells { CellIn area.now i × CellIn area.now j }
    requires small { (5 * size (tree_in area.now i) < 65536) × (5 * size (tree_in area.now j) < 65536) }
    requires room { 15 * (size (tree_in area.now i) + size (tree_in area.now j)) ≤ length words.old }
    ensures value { result ≡ equivalent (tree_in area.now i) (tree_in area.now j) }
    ensures outside { Outside words.old words.new 0 (15 * (size (tree_in area.now i) + size (tree_in area.now j))) }
{
    let mut out = Writer { words, end: 0 };
    tree_words(area, i, &mut out);
    let mid = out.end;
    tree_words(area, j, &mut out);
    let (left, right) = out.since(0).split_at(mid);
    one_text(area.sheet, left, right)
}

// Whether the trees of cells i and j are equal up to order and grouping of sums. The words from `at` on, fifteen for each node of the two,
// are scratch.
pub fn equivalent_from(area: &mut Area, i: usize, j: usize, at: usize) -> bool
    requires cells { CellIn area.old i × CellIn area.old j }
    requires small { (5 * size (tree_in area.old i) < 65536) × (5 * size (tree_in area.old j) < 65536) }
    requires room { (4 * area.old.free ≤ at) × (at + 15 * (size (tree_in area.old i) + size (tree_in area.old j)) ≤ length area.old.work.now) }
    ensures value { result ≡ equivalent (tree_in area.old i) (tree_in area.old j) }
    ensures keeps { KeepsCells area.old area.new }
    ensures outside { Outside area.old.work.now area.new.work.now at (at + 15 * (size (tree_in area.old i) + size (tree_in area.old j))) }
{
    if i == j {
        return true;
    }
    if area.same_tree(i, j) {
        return true;
    }
    let Area { sheet, free, .. } = *area;
    // Lent to a variable first: the words that come back of a field have no name that a proof can cite.
    let work = &mut *area.work;
    let (cells, words) = work.split_at_mut(at);
    let trees = Area {
        sheet,
        work: cells,
        free,
    };
    same_canonical(&trees, i, j, words)
}

// The same with the words right above the cells.
pub fn equivalent(area: &mut Area, i: usize, j: usize) -> bool
    requires cells { CellIn area.old i × CellIn area.old j }
    requires small { (5 * size (tree_in area.old i) < 65536) × (5 * size (tree_in area.old j) < 65536) }
    requires room { 4 * area.old.free + 15 * (size (tree_in area.old i) + size (tree_in area.old j)) ≤ length area.old.work.now }
    ensures value { result ≡ equivalent (tree_in area.old i) (tree_in area.old j) }
    ensures keeps { KeepsCells area.old area.new }
    ensures outside { Outside area.old.work.now area.new.work.now (4 * area.old.free) (4 * area.old.free + 15 * (size (tree_in area.old i) + size (tree_in area.old j))) }
{
    let at = 4 * area.free;
    equivalent_from(area, i, j, at)
}
