// The variables of trees of an area in byte order, each once, as places above its cells.
ghost use Rattle.std.specs.Prelude.{◌≡◌, map, ◌+◌, ◌*◌, ◌<◌, ◌≤◌, length};
ghost use Rattle.rules.specs.Tree.{size, sizes, variable_names, variable_names_in};
ghost use Rattle.text.specs.Places.{text_at};
ghost use Rattle.tree.specs.Areas.{CellIn, tree_in, trees_in};
ghost use Rattle.variables.specs.Variables.{Readable, ReadableAll, PlacesWritten, Dropped, Ordered, repeats};
ghost use Rattle.variables.specs.Areas.{GathersFrom, GathersIn};

use flattening::writer::Writer;
use text::places::{sort_by_texts, text_at};
use tree::area::Area;
use tree::kinds::Kind;

// Places in the words of the work area from one position to another: of words, where sheet's Place is of bytes.
#[derive(Clone, Copy, Debug, PartialEq, Eq)]
pub struct Places {
    pub from: usize,
    pub to: usize,
}

// Writes the places of the variables of the tree of cell i.
#[cycle(gather_gather_list)]
fn gather(area: &Area, i: usize, out: &mut Writer)
    requires cell { CellIn area.now i × Readable (tree_in area.now i) }
    requires room { out.old.end + size (tree_in area.now i) ≤ length out.old.words.now }
    ensures { PlacesWritten area.now.sheet.now out.old out.new (size (tree_in area.now i)) (variable_names (tree_in area.now i)) }
{
    match area.kind(i) {
        Kind::Application => gather_list(area, area.first_of(i), out),
        Kind::Variable(_) => out.push(area.work[4 * i]),
        Kind::Atom(_) => {}
    }
}

// The same of the trees of the list from cell `list` on.
#[cycle(gather_gather_list)]
fn gather_list(area: &Area, list: usize, out: &mut Writer)
    requires list { (list < area.now.free) × ReadableAll (trees_in area.now list) }
    requires room { out.old.end + sizes (trees_in area.now list) ≤ length out.old.words.now }
    ensures { PlacesWritten area.now.sheet.now out.old out.new (sizes (trees_in area.now list)) (variable_names_in (trees_in area.now list)) }
{
    for i in area.list(list) {
        gather(area, i, out);
    }
}

// Whether the text of the first place is also the next one's.
fn repeats(sheet: &[u8], places: &[u32]) -> bool
    ensures { result ≡ repeats (map (text_at sheet.now) places.now) }
{
    match places {
        [x, y, ..] => text_at(sheet, *x) == text_at(sheet, *y),
        _ => false,
    }
}

// Moves the places whose text is not also the next one's to the front, and answers how many they are.
// Sorted places show repeats side by side, where a set would need a heap. Read and written at two rates: no iterator is plainer.
fn drop_repeats(sheet: &[u8], places: &mut [u32]) -> usize
    ensures { Dropped sheet.now places.old places.new result }
{
    let end = places.len();
    let mut kept = 0;
    for i in 0..end {
        if repeats(sheet, &places[i..]) {
            continue;
        }
        places[kept] = places[i];
        kept += 1;
    }
    kept
}

// Writes the places of the variables of the trees of the list to the front of the words, in byte order and each once, and answers how many
// they are.
fn order(area: &Area, list: usize, words: &mut [u32]) -> usize
    requires list { (list < area.now.free) × ReadableAll (trees_in area.now list) }
    requires room { 2 * sizes (trees_in area.now list) ≤ length words.old }
    ensures { Ordered area.now.sheet.now words.old words.new 0 result (sizes (trees_in area.now list)) (variable_names_in (trees_in area.now list)) }
{
    let mut out = Writer { words, end: 0 };
    gather_list(area, list, &mut out);
    let Writer { words, end } = out;
    let (places, room) = words.split_at_mut(end);
    sort_by_texts(area.sheet, places, room);
    drop_repeats(area.sheet, places)
}

// Writes the places of the variables of the trees of the list, in byte order and each once, from a position above the cells on. As many
// words as the trees have nodes, and as many again, are scratch.
pub fn variables_from(area: &mut Area, list: usize, from: usize) -> Places
    requires list { (list < area.old.free) × ReadableAll (trees_in area.old list) }
    requires room { (4 * area.old.free ≤ from) × (from + 2 * sizes (trees_in area.old list) ≤ length area.old.work.now) }
    ensures { GathersFrom area.old area.new list from result }
{
    let Area { sheet, free, .. } = *area;
    // Lent to a variable first: the words that come back of a field have no name that a proof can cite.
    let work = &mut *area.work;
    let (cells, words) = work.split_at_mut(from);
    let trees = Area {
        sheet,
        work: cells,
        free,
    };
    let count = order(&trees, list, words);
    Places {
        from,
        to: from + count,
    }
}

// The same above as many cells as the sheet has bytes.
pub fn variables_of(area: &mut Area, list: usize) -> Places
    requires list { (list < area.old.free) × ReadableAll (trees_in area.old list) }
    requires few { sizes (trees_in area.old list) ≤ length area.old.sheet.now }
    requires room { 4 * (area.old.free + length area.old.sheet.now) + 2 * length area.old.sheet.now ≤ length area.old.work.now }
    ensures { GathersIn area.old area.new list result }
{
    let from = 4 * (area.free + area.sheet.len());
    variables_from(area, list, from)
}
