// What a rule makes of the children under its name in an area.
ghost use Rattle.std.specs.Prelude.{◌≡◌, ◌+◌, ◌*◌, ◌<◌, ◌≤◌, length, IfSome, option_map};
ghost use Rattle.rules.specs.declared.Rule.TheVariants.{Flip, Sdec, Kdec};
ghost use Rattle.rules.specs.Tree.{size, sizes};
ghost use Rattle.rules.specs.Reduction.{fire, opens};
ghost use Rattle.tree.specs.Names.{fixed_code};
ghost use Rattle.tree.specs.Areas.{tree_in, trees_in, CellIn, KeepsCells};
ghost use Rattle.rewriting.specs.Building.{key_room};
ghost use Rattle.rewriting.specs.Values.{PartsIn, fixed_tree, value_tree, ValueIn};

use crate::naming::{Two, is_constant, is_one, is_two, one_argument, two_arguments};
use equivalence::equivalent;
use rules::Rule;
use sorts::message;
use tree::area::Area;
use tree::fixed::Fixed;

// What a rule makes: the tree of a cell, or a fixed name without children.
#[derive(Clone, Copy, Debug, PartialEq, Eq)]
pub enum Value {
    Cell(usize),
    Name(Fixed),
}

// The parts, which are messages, of the pair that is the one child from cell `list` on.
#[tactic(auto, unfolding(rules::specs::Reduction::fire))]
pub fn parts_of(area: &Area, list: usize) -> Option<Two>
    requires { list < area.now.free }
    ensures parts { PartsIn area.now list result }
    ensures cells { IfSome result (λ two. CellIn area.now two.first × CellIn area.now two.second) }
{
    let pair = one_argument(area, list)?;
    let parts = is_two(area, pair, Fixed::Pair)?;
    (message(area, parts.first) && message(area, parts.second)).then_some(parts)
}

// The other role than the one child from cell `list` on.
#[tactic(auto, unfolding(rules::specs::Reduction::fire, rules::specs::Reduction::flipped))]
pub fn flipped(area: &Area, list: usize) -> Option<Fixed>
    requires { list < area.now.free }
    ensures fires { fire Flip (trees_in area.now list) ≡ option_map fixed_tree result }
    ensures role { IfSome result (λ name. fixed_code name < 3) }
{
    let role = one_argument(area, list)?;
    if is_constant(area, role, Fixed::RoleA) {
        return Some(Fixed::RoleB);
    }
    if is_constant(area, role, Fixed::RoleB) {
        return Some(Fixed::RoleA);
    }
    None
}

// Whether payload and key are messages and the keys equivalent. The words above the cells are scratch.
#[tactic(auto, unfolding(rules::specs::Reduction::opens))]
fn opens(area: &mut Area, payload: usize, key: usize, other: usize) -> bool
    requires cells { CellIn area.old payload × CellIn area.old key × CellIn area.old other }
    requires small { size (tree_in area.old key) + size (tree_in area.old other) ≤ 4096 }
    requires room { 4 * area.old.free + key_room ≤ length area.old.work.now }
    ensures opens { result ≡ opens (tree_in area.old payload) (tree_in area.old key) (tree_in area.old other) }
    ensures keeps { KeepsCells area.old area.new }
{
    message(area, payload) && message(area, key) && equivalent(area, key, other)
}

// The payload of the cipher, the first of two children from cell `list` on, under the key, the second. The words above the cells are
// scratch.
#[tactic(auto, unfolding(rules::specs::Reduction::fire))]
pub fn decrypted(area: &mut Area, list: usize) -> Option<usize>
    requires list { list < area.old.free }
    requires small { sizes (trees_in area.old list) ≤ 4096 }
    requires room { 4 * area.old.free + key_room ≤ length area.old.work.now }
    ensures tree { fire Sdec (trees_in area.old list) ≡ option_map (tree_in area.old) result }
    ensures cell { IfSome result (CellIn area.old) }
    ensures keeps { KeepsCells area.old area.new }
{
    let other = two_arguments(area, list)?;
    let cipher = is_two(area, list, Fixed::Senc)?;
    opens(area, cipher.first, cipher.second, other).then_some(cipher.first)
}

// The same where the key of the cipher is boxed: it lies one level deeper, and what the two share is `opens`.
#[tactic(auto, unfolding(rules::specs::Reduction::fire))]
pub fn unboxed(area: &mut Area, list: usize) -> Option<usize>
    requires list { list < area.old.free }
    requires small { sizes (trees_in area.old list) ≤ 4096 }
    requires room { 4 * area.old.free + key_room ≤ length area.old.work.now }
    ensures tree { fire Kdec (trees_in area.old list) ≡ option_map (tree_in area.old) result }
    ensures cell { IfSome result (CellIn area.old) }
    ensures keeps { KeepsCells area.old area.new }
{
    let other = two_arguments(area, list)?;
    let cipher = is_two(area, list, Fixed::Kem)?;
    let key = is_one(area, cipher.second, Fixed::Pk)?;
    opens(area, cipher.first, key, other).then_some(cipher.first)
}

// What the rule makes of the list from cell `list` on, if it fires. The words above the cells are scratch. An arm to a rule: each reads
// its children in its own way.
pub fn fire(area: &mut Area, rule: Rule, list: usize) -> Option<Value>
    requires list { list < area.old.free }
    requires small { sizes (trees_in area.old list) ≤ 4096 }
    requires room { 4 * area.old.free + key_room ≤ length area.old.work.now }
    ensures fires { fire rule (trees_in area.old list) ≡ option_map (value_tree area.old) result }
    ensures value { IfSome result (ValueIn area.old) }
    ensures keeps { KeepsCells area.old area.new }
{
    match rule {
        Rule::Fst => Some(Value::Cell(parts_of(area, list)?.first)),
        Rule::Snd => Some(Value::Cell(parts_of(area, list)?.second)),
        Rule::Flip => Some(Value::Name(flipped(area, list)?)),
        Rule::Sdec => Some(Value::Cell(decrypted(area, list)?)),
        Rule::Kdec => Some(Value::Cell(unboxed(area, list)?)),
    }
}
