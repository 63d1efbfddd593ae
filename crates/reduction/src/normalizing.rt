// Normal forms of trees of an area: a list's later trees first, then a tree's children, then one step at its root.
ghost use Rattle.std.specs.Prelude.{◌≡◌, ◌+◌, ◌*◌, ◌<◌, ◌≤◌, ◌^◌, length, IfSome, option_map};
ghost use Rattle.rules.specs.Maybe.{otherwise};
ghost use Rattle.rules.specs.Tree.{apply, size, sizes};
ghost use Rattle.rules.specs.Reduction.{root, normalize, normalizes};
ghost use Rattle.tree.specs.declared.kinds.Kind.TheVariants.{Application};
ghost use Rattle.tree.specs.Arena.{Grown};
ghost use Rattle.tree.specs.Areas.{cell_kind, name_in, tree_in, trees_in, CellIn, HasRoom, KeepsCells};
ghost use Rattle.rewriting.specs.Building.{key_room};
ghost use Rattle.rewriting.specs.Values.{value_tree, ValueIn};
ghost use Rattle.reduction.specs.Areas.{Becomes, BecomesList};

use rewriting::firing::{Value, fire};
use rewriting::naming::rule_named;
use substitution::instances::keep;
use tree::area::Area;
use tree::kinds::Kind;

// The name of cell i over the list from cell first on, before the list from cell next on.
pub fn stay(area: &mut Area, i: usize, first: usize, next: usize) -> usize
    requires cells { CellIn area.old i × (first < area.old.free) × (next < area.old.free) }
    requires application { cell_kind area.old i ≡ Application }
    requires small { sizes (trees_in area.old first) < 65535 }
    requires room { HasRoom area.old 1 }
    ensures becomes { Becomes area.old area.new 1 next (apply (name_in area.old i) (trees_in area.old first)) result }
    ensures grown { Grown area.old.work.now area.new.work.now area.old.free area.new.free }
{
    if area.first_of(i) == first {
        return keep(area, i, next);
    }
    area.push_like(i, first, next, 1 + area.nodes_below(first))
}

// What the rule of the name of cell i makes of the list from cell first on, if there is one and it fires. The words above the cells are
// scratch.
fn fired(area: &mut Area, i: usize, first: usize) -> Option<Value>
    requires cells { CellIn area.old i × (first < area.old.free) }
    requires small { sizes (trees_in area.old first) ≤ 4096 }
    requires room { 4 * area.old.free + key_room ≤ length area.old.work.now }
    ensures fires { root (name_in area.old i) (trees_in area.old first) ≡ otherwise (option_map (value_tree area.old) result) (apply (name_in area.old i) (trees_in area.old first)) }
    ensures value { IfSome result (ValueIn area.old) }
    ensures keeps { KeepsCells area.old area.new }
{
    let rule = rule_named(area, i)?;
    fire(area, rule, first)
}

// One step at the root: the name of cell i over the list from cell first on. The words above the cells are scratch.
fn root(area: &mut Area, i: usize, first: usize, next: usize) -> usize
    requires cells { CellIn area.old i × (first < area.old.free) × (next < area.old.free) }
    requires application { cell_kind area.old i ≡ Application }
    requires small { sizes (trees_in area.old first) ≤ 4096 }
    requires room { (4 * area.old.free + 4 + key_room ≤ length area.old.work.now) × (area.old.free < 2 ^ 32) }
    ensures { Becomes area.old area.new 1 next (root (name_in area.old i) (trees_in area.old first)) result }
{
    match fired(area, i, first) {
        Some(Value::Cell(k)) => keep(area, k, next),
        Some(Value::Name(name)) => area.push_fixed(name, 0, next, 1),
        None => stay(area, i, first, next),
    }
}

// The normal forms of the trees of the list from cell `list` on. It alone calls itself, for the later trees, whose cells are made first,
// and for the children: one frame for each level of a term, which may be 4,096 deep.
fn normalize_list(area: &mut Area, list: usize) -> usize
    requires list { list < area.old.free }
    requires small { sizes (trees_in area.old list) ≤ 4096 }
    requires room { (4 * (area.old.free + sizes (trees_in area.old list)) + key_room ≤ length area.old.work.now) × (area.old.free + sizes (trees_in area.old list) ≤ 2 ^ 32) }
    ensures { BecomesList area.old area.new (sizes (trees_in area.old list)) (normalizes (trees_in area.old list)) result }
{
    if list == 0 {
        return 0;
    }
    let rest = area.next_of(list);
    let next = normalize_list(area, rest);
    match area.kind(list) {
        Kind::Application => {
            let children = area.first_of(list);
            let first = normalize_list(area, children);
            root(area, list, first, next)
        }
        Kind::Variable(_) | Kind::Atom(_) => keep(area, list, next),
    }
}

// The normal form of the tree of cell i, before the list from cell next on. The words above the cells are scratch.
pub fn normalize(area: &mut Area, i: usize, next: usize) -> usize
    requires cells { CellIn area.old i × (next < area.old.free) }
    requires small { size (tree_in area.old i) ≤ 4096 }
    requires room { (4 * (area.old.free + size (tree_in area.old i)) + key_room ≤ length area.old.work.now) × (area.old.free + size (tree_in area.old i) ≤ 2 ^ 32) }
    ensures { Becomes area.old area.new (size (tree_in area.old i)) next (normalize (tree_in area.old i)) result }
{
    match area.kind(i) {
        Kind::Application => {
            let children = area.first_of(i);
            let first = normalize_list(area, children);
            root(area, i, first, next)
        }
        Kind::Variable(_) | Kind::Atom(_) => keep(area, i, next),
    }
}
