// Closing a list of an area: its trees in their order, and the application, the sum or the atom that they make.
#![tactic(auto)]

ghost use Rattle.std.specs.Prelude.{◌≡◌, [], ◌∷◌, ◌*◌, ◌<◌, ◌≤◌};
ghost use Rattle.rules.specs.Tree.{apply, none, more, count, tamtplus};
ghost use Rattle.rules.specs.Reading.{close, atom_of, sum_of};
ghost use Rattle.tree.specs.Areas.{tree_in, trees_in, CellIn, HasRoom};
ghost use Rattle.tree.specs.Spelled.{text_in, Spelled};
ghost use Rattle.closing.specs.Machine.{back};
ghost use Rattle.closing.specs.Closing.{summed};
ghost use Rattle.closing.specs.Areas.{room_for, PutsInOrder, ClosesIn, NestsIn, AloneIn};

use leaves::{all_digits, letter_of};
use rules::SUM;
use sheet::Place;
use tree::area::Area;
use tree::kinds::Kind;

// The first of the new cells, and the count of nodes.
#[derive(Clone, Copy, Debug, PartialEq, Eq)]
struct Ordered {
    first: usize,
    nodes: usize,
}

// The trees of a chain once more, in their order, unless they have more than 4,095 nodes.
fn in_order(area: &mut Area, chain: usize) -> Option<Ordered>
    requires chain { chain < area.old.free }
    requires room { HasRoom area.old (count (trees_in area.old chain)) }
    ensures { PutsInOrder area.old area.new chain result }
{
    let nodes = area.nodes_in(chain);
    if 4095 < nodes {
        return None;
    }
    let first = area.reversed(chain);
    Some(Ordered { first, nodes })
}

// An application.
fn list(area: &mut Area, name: Place, chain: usize, next: usize) -> Option<usize>
    requires links { (chain < area.old.free) × (next < area.old.free) }
    requires room { HasRoom area.old (room_for area.old chain) }
    requires name { Spelled area.old.sheet.now name }
    ensures { ClosesIn area.old area.new (room_for area.old chain) next (Some (apply (text_in area.old name) (back (trees_in area.old chain) none))) result }
{
    let children = in_order(area, chain)?;
    Some(area.push_application(name, children.first, next, children.nodes + 1))
}

// Summands put in front of the tree of cell tail, which has no link, one after another. The cells are pushed into the area that is
// walked: an iterator would hold it.
fn nest(area: &mut Area, plus: Place, tail: usize, chain: usize) -> Option<usize>
    requires tail { CellIn area.old tail × (trees_in area.old tail ≡ more (tree_in area.old tail) none) }
    requires chain { CellIn area.old chain }
    requires room { HasRoom area.old (2 * count (trees_in area.old chain)) }
    requires name { Spelled area.old.sheet.now plus × (text_in area.old plus ≡ tamtplus) }
    ensures { NestsIn area.old area.new (2 * count (trees_in area.old chain)) (Some (summed (tree_in area.old tail) (trees_in area.old chain))) result }
{
    let mut last = tail;
    let mut k = chain;
    while 0 < k {
        let nodes = 1 + area.count_of(k) + area.count_of(last);
        if 4096 < nodes {
            return None;
        }
        let before = area.next_of(k);
        let pair = area.share(k, last);
        last = area.push_application(plus, pair, 0, nodes);
        k = before;
    }
    Some(last)
}

// A sum of two trees or more, nested to the right.
fn sum(area: &mut Area, plus: Place, chain: usize, next: usize) -> Option<usize>
    requires links { (chain < area.old.free) × (next < area.old.free) }
    requires room { HasRoom area.old (room_for area.old chain) }
    requires name { Spelled area.old.sheet.now plus × (text_in area.old plus ≡ tamtplus) }
    ensures { ClosesIn area.old area.new (room_for area.old chain) next (sum_of (back (trees_in area.old chain) none)) result }
{
    if chain == 0 {
        return None;
    }
    let second = area.next_of(chain);
    if second == 0 {
        return None;
    }
    let tail = area.share(chain, 0);
    // No `?`: the cells of a sum that is too large are given back first.
    let Some(nested) = nest(area, plus, tail, second) else {
        area.truncate(tail);
        return None;
    };
    Some(area.share(nested, next))
}

// Whether the list at cell k is one application of digits, without children.
#[tactic(auto, using(crate::proofs::Numbers::alone_none, crate::proofs::Numbers::alone_several, crate::proofs::Numbers::alone_other, crate::proofs::Numbers::alone_children))]
fn is_number(area: &Area, k: usize) -> bool
    requires { k < area.now.free }
    ensures { AloneIn area.now k result }
{
    k != 0
        && area.next_of(k) == 0
        && matches!(area.kind(k), Kind::Application)
        && area.first_of(k) == 0
        && area.spelled(k).is_some_and(all_digits)
}

// An atom: a letter around digits.
fn atom(area: &mut Area, letter: u8, chain: usize, next: usize) -> Option<usize>
    requires links { (chain < area.old.free) × (next < area.old.free) }
    requires room { HasRoom area.old (room_for area.old chain) }
    requires letter { 7 ≤ letter }
    ensures { ClosesIn area.old area.new (room_for area.old chain) next (atom_of (letter ∷ []) (back (trees_in area.old chain) none)) result }
{
    if !is_number(area, chain) {
        return None;
    }
    Some(area.push_atom(letter, chain, next))
}

// What a name and its list are (unifier.rs, `close`), before the list at a link.
pub fn shut(area: &mut Area, name: Place, chain: usize, next: usize) -> Option<usize>
    requires links { (chain < area.old.free) × (next < area.old.free) }
    requires room { HasRoom area.old (room_for area.old chain) }
    requires name { Spelled area.old.sheet.now name }
    ensures { ClosesIn area.old area.new (room_for area.old chain) next (close (text_in area.old name) (back (trees_in area.old chain) none)) result }
{
    let text = name.text(area.sheet);
    if let Some(letter) = letter_of(text) {
        return atom(area, letter, chain, next);
    }
    if text == SUM {
        return sum(area, name, chain, next);
    }
    list(area, name, chain, next)
}
