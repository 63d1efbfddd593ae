// The rule of a name, and the children of a tree of an area where they are as many as a rule asks for: a function for one child and
// one for two, since one for N would go by a loop.
ghost use Rattle.std.specs.Prelude.{◌≡◌, ◌<◌, IfSome, option_map};
ghost use Rattle.rules.specs.Reduction.{rule_named, arguments1, arguments2, arguments_of, is_constant, is_one, is_two};
ghost use Rattle.rules.specs.Maybe.{guard};
ghost use Rattle.tree.specs.Names.{fixed_text};
ghost use Rattle.tree.specs.Areas.{name_in, tree_in, trees_in, CellIn};
ghost use Rattle.rewriting.specs.Areas.{two_in};

use rules::Rule;
use tree::area::Area;
use tree::fixed::Fixed;
use tree::kinds::Kind;

// The rule of a name, if it has one.
#[tactic(auto, using(crate::proofs::Rules::fst_named, crate::proofs::Rules::snd_named, crate::proofs::Rules::flip_named, crate::proofs::Rules::sdec_named, crate::proofs::Rules::kdec_named, crate::proofs::Rules::no_rule))]
fn rule_of(name: &[u8]) -> Option<Rule>
    ensures { result ≡ rule_named name.now }
{
    match name {
        b"tamXCfst" => Some(Rule::Fst),
        b"tamXCsnd" => Some(Rule::Snd),
        b"tamXCflip" => Some(Rule::Flip),
        b"tamXCsdec" => Some(Rule::Sdec),
        b"tamXCkdec" => Some(Rule::Kdec),
        _ => None,
    }
}

// The rule of the name of cell k, if it has one. A name by its code has none.
#[tactic(auto, using(crate::proofs::Rules::coded_none))]
pub fn rule_named(area: &Area, k: usize) -> Option<Rule>
    requires { CellIn area.now k }
    ensures { result ≡ rule_named (name_in area.now k) }
{
    rule_of(area.spelled(k)?)
}

// The only cell of the list from cell `list` on.
#[tactic(auto, using(crate::proofs::Arguments::none_no_one, crate::proofs::Arguments::only_one, crate::proofs::Arguments::others_after))]
pub fn one_argument(area: &Area, list: usize) -> Option<usize>
    requires { list < area.now.free }
    ensures tree { arguments1 (trees_in area.now list) ≡ option_map (tree_in area.now) result }
    ensures cell { IfSome result (CellIn area.now) }
{
    if list == 0 || area.next_of(list) != 0 {
        return None;
    }
    Some(list)
}

// The second of the two cells of the list from cell `list` on, which is the first.
#[tactic(auto, using(crate::proofs::Arguments::none_no_two))]
pub fn two_arguments(area: &Area, list: usize) -> Option<usize>
    requires { list < area.now.free }
    ensures trees { arguments2 (trees_in area.now list) ≡ option_map (λ k. (tree_in area.now list, tree_in area.now k)) result }
    ensures cells { IfSome result (λ k. (0 < list) × CellIn area.now k) }
{
    if list == 0 {
        return None;
    }
    one_argument(area, area.next_of(list))
}

// The list of the children of cell k, if it is an application with the name.
#[tactic(auto, using(crate::proofs::Arguments::application_arguments, crate::proofs::Arguments::variable_arguments, crate::proofs::Arguments::atom_arguments))]
fn arguments_of(area: &Area, k: usize, name: Fixed) -> Option<usize>
    requires { CellIn area.now k }
    ensures trees { arguments_of (fixed_text name) (tree_in area.now k) ≡ option_map (trees_in area.now) result }
    ensures list { IfSome result (λ i. i < area.now.free) }
{
    match area.kind(k) {
        Kind::Application => area.name_is(k, name.text()).then_some(area.first_of(k)),
        Kind::Variable(_) | Kind::Atom(_) => None,
    }
}

// Whether the tree of cell k is a name without arguments.
#[tactic(auto, unfolding(rules::specs::Reduction::is_constant))]
pub(crate) fn is_constant(area: &Area, k: usize, name: Fixed) -> bool
    requires { CellIn area.now k }
    ensures { is_constant (fixed_text name) (tree_in area.now k) ≡ guard result }
{
    arguments_of(area, k, name) == Some(0)
}

// The cell of the one argument under a name at cell k.
#[tactic(auto, unfolding(rules::specs::Reduction::is_one))]
pub(crate) fn is_one(area: &Area, k: usize, name: Fixed) -> Option<usize>
    requires { CellIn area.now k }
    ensures tree { is_one (fixed_text name) (tree_in area.now k) ≡ option_map (tree_in area.now) result }
    ensures cell { IfSome result (CellIn area.now) }
{
    let list = arguments_of(area, k, name)?;
    one_argument(area, list)
}

// The cells of two arguments.
#[derive(Clone, Copy, Debug, PartialEq, Eq)]
pub struct Two {
    pub first: usize,
    pub second: usize,
}

// The cells of the two arguments under a name at cell k.
#[tactic(auto, unfolding(rules::specs::Reduction::is_two))]
pub(crate) fn is_two(area: &Area, k: usize, name: Fixed) -> Option<Two>
    requires { CellIn area.now k }
    ensures trees { is_two (fixed_text name) (tree_in area.now k) ≡ option_map (two_in area.now) result }
    ensures cells { IfSome result (λ two. CellIn area.now two.first × CellIn area.now two.second) }
{
    let first = arguments_of(area, k, name)?;
    let second = two_arguments(area, first)?;
    Some(Two { first, second })
}
