// The choices at a root in an area, and the count of schemes.
ghost use Rattle.std.specs.Prelude.{◌≡◌, ◌*◌, ◌<◌, ◌≤◌, IfSome, Some};
ghost use Rattle.rules.specs.Reduction.{rule_named};
ghost use Rattle.rules.specs.Variants.{scheme_count, scheme_counts};
ghost use Rattle.tree.specs.Areas.{cell_kind, name_in, tree_in, trees_in, CellIn};
ghost use Rattle.tree.specs.declared.kinds.Kind.TheVariants.{Application};
ghost use Rattle.schemes.specs.Choices.{over, ways_of, suits, choice_count};
ghost use Rattle.schemes.specs.Areas.{counted_in};

use rewriting::naming::{one_argument, rule_named, two_arguments};
use rules::Rule;
use tree::area::Area;
use tree::kinds::Kind;

// Whether the list from cell first on has as many trees as a rule asks for. One arm to a number of trees: no table is plainer.
fn suits(area: &Area, rule: Rule, first: usize) -> bool
    requires { first < area.now.free }
    ensures { result ≡ suits rule (trees_in area.now first) }
{
    match rule {
        Rule::Fst | Rule::Snd | Rule::Flip => one_argument(area, first).is_some(),
        Rule::Sdec | Rule::Kdec => two_arguments(area, first).is_some(),
    }
}

// The rule that can fire at the root of cell i with the children from cell first on.
#[tactic(auto, using(crate::proofs::Lining::ways_leaf, crate::proofs::Lining::ways_node, crate::proofs::Lining::leaf_kind, crate::proofs::Firings::count_of, crate::proofs::Numbering::suits_choices, crate::proofs::Numbering::unsuited_choices))]
pub(crate) fn rule_at(area: &Area, i: usize, first: usize) -> Option<Rule>
    requires { CellIn area.now i × (first < area.now.free) }
    ensures ways { choice_count result ≡ ways_of (over (tree_in area.now i) (trees_in area.now first)) }
    ensures rule { IfSome result (λ rule. (cell_kind area.now i ≡ Application) × (rule_named (name_in area.now i) ≡ Some rule)) }
{
    match area.kind(i) {
        Kind::Application => {
            let rule = rule_named(area, i)?;
            suits(area, rule, first).then_some(rule)
        }
        Kind::Variable(_) | Kind::Atom(_) => None,
    }
}

// How many choices there are at a root where a rule, if any, can fire. One arm to a number: no table is plainer.
pub(crate) fn choices(rule: Option<Rule>) -> usize
    ensures { result ≡ choice_count rule }
{
    match rule {
        None => 1,
        Some(Rule::Flip) => 3,
        Some(Rule::Fst | Rule::Snd | Rule::Sdec | Rule::Kdec) => 2,
    }
}

// A product, if it is at most 4,096.
#[tactic(auto, using(crate::proofs::Numbering::counted_then))]
fn times(count: usize, ways: usize) -> Option<usize>
    requires { (count ≤ 4096) × (ways < 4) }
    ensures { result ≡ counted_in (count * ways) }
{
    let product = count * ways;
    (product <= 4096).then_some(product)
}

// How many choices there are at the root of cell i.
fn ways_at(area: &Area, i: usize) -> usize
    requires { CellIn area.now i }
    ensures { result ≡ ways_of (tree_in area.now i) }
{
    choices(rule_at(area, i, area.child_of(i)))
}

// The count of schemes of the trees of the list from cell i on, times another count. What it does with each tree stands in count_schemes
// too: a function of the tree that calls this one would be a second frame at each level of a term, which may be 4,096 deep.
fn count_list(area: &Area, i: usize, count: usize) -> Option<usize>
    requires { (i < area.now.free) × (count ≤ 4096) }
    ensures { result ≡ counted_in (count * scheme_counts (trees_in area.now i)) }
{
    if i == 0 {
        return Some(count);
    }
    let below = count_list(area, area.child_of(i), count)?;
    let here = times(below, ways_at(area, i))?;
    count_list(area, area.next_of(i), here)
}

// The count of schemes of the tree of cell i, if it is at most 4,096.
pub fn count_schemes(area: &Area, i: usize) -> Option<usize>
    requires { CellIn area.now i }
    ensures { result ≡ counted_in (scheme_count (tree_in area.now i)) }
{
    let below = count_list(area, area.child_of(i), 1)?;
    times(below, ways_at(area, i))
}
