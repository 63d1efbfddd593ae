// The stack of open lists, in words above the cells of an area: a leaf on its top, a list opened, a list closed.
ghost use Rattle.std.specs.Prelude.{◌≡◌, ◌+◌, ◌*◌, ◌<◌, ◌≤◌, ◌^◌, length, get_or};
ghost use Rattle.rules.specs.Reading.{leaf};
ghost use Rattle.tree.specs.Areas.{Pushes, HasRoom};
ghost use Rattle.tree.specs.Spelled.{text_in, Spelled};
ghost use Rattle.closing.specs.Closing.{most};
ghost use Rattle.reading.specs.Stacks.{HeldIn, AddsTo, OpensOn, ClosesOn};

use closing::shut;
use leaves::sorts::leaf_sort;
use sheet::Place;
use tree::area::Area;

// The stack has so many levels above the bottom, whose word stands above so many cells. Its words are the area's own: a slice of them
// beside the area that closing writes to is a loan through a struct with a ghost field, which has no proof.
#[derive(Clone, Copy, Debug, PartialEq, Eq)]
pub(crate) struct Stack {
    pub(crate) limit: usize,
    pub(crate) depth: usize,
}

// A leaf before the list at `next`.
fn push_leaf(area: &mut Area, name: Place, next: usize) -> usize
    requires name { Spelled area.old.sheet.now name }
    requires link { next < area.old.free }
    requires room { HasRoom area.old 1 }
    ensures { Pushes area.old area.new result next (leaf (text_in area.old name)) }
{
    match leaf_sort(name.text(area.sheet)) {
        Some(sort) => area.push_variable(name, sort, next),
        None => area.push_application(name, 0, next, 1),
    }
}

// A leaf, put on the top level.
pub(crate) fn leaf(area: &mut Area, stack: Stack, name: Place)
    requires held { HeldIn area.old stack.limit stack.depth }
    requires room { (area.old.free < stack.limit) × (stack.limit < 2 ^ 32) }
    requires name { Spelled area.old.sheet.now name }
    ensures adds { AddsTo area.old area.new stack (leaf (text_in area.old name)) }
    ensures end { area.new.free ≡ area.old.free + 1 }
{
    let top = 4 * stack.limit + 3 * stack.depth;
    let next = area.word(top);
    let cell = push_leaf(area, name, next);
    area.set_word(top, cell);
}

// A list opened: the next level.
pub(crate) fn begin(area: &mut Area, stack: Stack, name: Place)
    requires held { HeldIn area.old stack.limit stack.depth }
    requires room { 4 * stack.limit + 3 * stack.depth + 3 < length area.old.work.now }
    requires name { Spelled area.old.sheet.now name }
    ensures { OpensOn area.old area.new stack (text_in area.old name) }
{
    let top = 4 * stack.limit + 3 * stack.depth;
    // Lent once: the area's invariant is asked after each word that is written through the area.
    let work = &mut *area.work;
    work[top + 1] = name.from as u32;
    work[top + 2] = (name.to - name.from) as u32;
    work[top + 3] = 0;
}

// The list of the level above the top closed, and its tree put on the top: the tree's cell, if there is a tree.
pub(crate) fn close(area: &mut Area, stack: Stack) -> Option<usize>
    requires held { HeldIn area.old stack.limit (stack.depth + 1) }
    requires room { (most area.old.sheet.now area.old.work.now area.old.free (get_or area.old.work.now (4 * stack.limit + 3 * stack.depth + 3) 0) ≤ stack.limit) × (stack.limit < 2 ^ 32) }
    requires small { length area.old.sheet.now ≤ 65536 }
    ensures { ClosesOn area.old area.new stack result }
{
    let top = 4 * stack.limit + 3 * stack.depth;
    let next = area.word(top);
    let from = area.word(top + 1);
    let to = from + area.word(top + 2);
    let chain = area.word(top + 3);
    let cell = shut(area, Place { from, to }, chain, next)?;
    area.set_word(top, cell);
    Some(cell)
}
