// The five sorts: which meet, which trees of an area have them, and which may have an instance of them.
// The tests of a tree are inlined into those of lists, whose last call is then one of themselves: the compiler makes a jump of it, so that
// the last tree of a list takes no level of the stack.
#![tactic(auto)]

ghost use Rattle.std.specs.Prelude.{◌≡◌, ◌<◌};
ghost use Rattle.rules.specs.Sorts.{intersects, symbol, natural, naturals, message, messages, basic, sorted, refinable, refinables};
ghost use Rattle.tree.specs.Areas.{name_in, tree_in, trees_in, CellIn};
ghost use Rattle.sorts.specs.Symbols.{meaning};

use rules::{SUM, Sort};
use tree::area::Area;
use tree::kinds::Kind;

// Which sorts meet.
const MEETS: [[bool; 5]; 5] = [
    [true, false, true, false, false],
    [false, true, true, false, false],
    [true, true, true, true, false],
    [false, false, true, true, false],
    [false, false, false, false, true],
];

// Whether two sorts meet.
fn meets(a: Sort, b: Sort) -> bool
    ensures { result ≡ intersects a b }
{
    MEETS[a as usize][b as usize]
}

// What a name means for the sort of a term.
#[derive(Clone, Copy, Debug, PartialEq, Eq)]
enum Symbol {
    Addition,
    Unit,
    Frame,
    Free,
}

// What a name stands for.
#[tactic(auto, using(crate::proofs::Symbols::sum_named, crate::proofs::Symbols::unit_named, crate::proofs::Symbols::other_named), unfolding(rules::specs::Sorts::symbol, rules::specs::Sorts::is_frame))]
#[inline(always)]
fn symbol_named(name: &[u8]) -> Symbol
    ensures { meaning result ≡ symbol name.now }
{
    match name {
        SUM => Symbol::Addition,
        b"tamXCtone" => Symbol::Unit,
        b"list" | b"cons" | b"nil" => Symbol::Frame,
        _ => Symbol::Free,
    }
}

// What the name of cell k stands for. A name by its code stands for itself.
#[tactic(auto, using(crate::proofs::Symbols::coded_free))]
#[inline(always)]
fn symbol_of(area: &Area, k: usize) -> Symbol
    requires { CellIn area.now k }
    ensures { meaning result ≡ symbol (name_in area.now k) }
{
    match area.spelled(k) {
        Some(name) => symbol_named(name),
        None => Symbol::Free,
    }
}

// Whether the tree of cell i is natural.
#[tactic(auto, using(crate::proofs::Testing::by_kind, tree::proofs::Walks::children_fall))]
#[cycle(natural_naturals)]
#[inline(always)]
pub fn natural(area: &Area, i: usize) -> bool
    requires { CellIn area.now i }
    ensures { result ≡ natural (tree_in area.now i) }
{
    match area.kind(i) {
        Kind::Application => match symbol_of(area, i) {
            Symbol::Addition => naturals(area, area.first_of(i)),
            Symbol::Unit => true,
            Symbol::Frame | Symbol::Free => false,
        },
        Kind::Variable(sort) => sort == Some(Sort::TamNat),
        Kind::Atom(letter) => letter == b't',
    }
}

// Whether every tree of the list from cell i on is natural.
#[tactic(auto, using(tree::proofs::Walks::first_falls))]
#[cycle(natural_naturals)]
fn naturals(area: &Area, i: usize) -> bool
    requires { i < area.now.free }
    ensures { result ≡ naturals (trees_in area.now i) }
{
    if i == 0 {
        return true;
    }
    let next = area.next_of(i);
    if next == 0 {
        return natural(area, i);
    }
    natural(area, i) && naturals(area, next)
}

// Whether the tree of cell i is a message.
#[tactic(auto, using(crate::proofs::Testing::by_kind, tree::proofs::Walks::children_fall))]
#[cycle(message_messages)]
#[inline(always)]
pub fn message(area: &Area, i: usize) -> bool
    requires { CellIn area.now i }
    ensures { result ≡ message (tree_in area.now i) }
{
    match area.kind(i) {
        Kind::Application => match symbol_of(area, i) {
            Symbol::Addition => naturals(area, area.first_of(i)),
            Symbol::Frame => false,
            Symbol::Unit | Symbol::Free => messages(area, area.first_of(i)),
        },
        Kind::Variable(Some(sort)) => sort != Sort::Node,
        Kind::Variable(None) => false,
        Kind::Atom(letter) => letter != b'n',
    }
}

// Whether every tree of the list from cell i on is a message.
#[tactic(auto, using(tree::proofs::Walks::first_falls))]
#[cycle(message_messages)]
fn messages(area: &Area, i: usize) -> bool
    requires { i < area.now.free }
    ensures { result ≡ messages (trees_in area.now i) }
{
    if i == 0 {
        return true;
    }
    let next = area.next_of(i);
    if next == 0 {
        return message(area, i);
    }
    message(area, i) && messages(area, next)
}

// Whether the tree of cell i is a variable of the sort or an atom of the letter.
#[tactic(auto, using(crate::proofs::Testing::by_kind))]
fn basic(area: &Area, sort: Sort, letter: u8, i: usize) -> bool
    requires { CellIn area.now i }
    ensures { result ≡ basic sort letter (tree_in area.now i) }
{
    match area.kind(i) {
        Kind::Application => false,
        Kind::Variable(own) => own == Some(sort),
        Kind::Atom(own) => own == letter,
    }
}

// Whether the tree of cell i has the sort. An arm to a sort: no table is plainer.
#[tactic(auto, unfolding(rules::specs::Sorts::sorted))]
pub fn sorted(area: &Area, sort: Sort, i: usize) -> bool
    requires { CellIn area.now i }
    ensures { result ≡ sorted sort (tree_in area.now i) }
{
    match sort {
        Sort::Pub => basic(area, Sort::Pub, b'p', i),
        Sort::Fresh => basic(area, Sort::Fresh, b'f', i),
        Sort::Msg => message(area, i),
        Sort::TamNat => natural(area, i),
        Sort::Node => basic(area, Sort::Node, b'n', i),
    }
}

// Whether the tree of cell i may have an instance of the sort.
#[tactic(auto, using(crate::proofs::Testing::by_kind, tree::proofs::Walks::children_fall))]
#[cycle(refinable_refinables)]
#[inline(always)]
pub fn refinable(area: &Area, sort: Sort, i: usize) -> bool
    requires { CellIn area.now i }
    ensures { result ≡ refinable sort (tree_in area.now i) }
{
    match area.kind(i) {
        Kind::Application => {
            let first = area.first_of(i);
            match symbol_of(area, i) {
                Symbol::Addition => {
                    (sort == Sort::TamNat || sort == Sort::Msg)
                        && refinables(area, Sort::TamNat, first)
                }
                Symbol::Frame => false,
                Symbol::Unit | Symbol::Free => {
                    if first == 0 {
                        return sorted(area, sort, i);
                    }
                    sort == Sort::Msg && refinables(area, Sort::Msg, first)
                }
            }
        }
        Kind::Variable(Some(own)) => meets(own, sort),
        Kind::Variable(None) => false,
        Kind::Atom(_) => sorted(area, sort, i),
    }
}

// Whether every tree of the list from cell i on may have an instance of the sort.
#[tactic(auto, using(tree::proofs::Walks::first_falls))]
#[cycle(refinable_refinables)]
fn refinables(area: &Area, sort: Sort, i: usize) -> bool
    requires { i < area.now.free }
    ensures { result ≡ refinables sort (trees_in area.now i) }
{
    if i == 0 {
        return true;
    }
    let next = area.next_of(i);
    if next == 0 {
        return refinable(area, sort, i);
    }
    refinable(area, sort, i) && refinables(area, sort, next)
}
