// What a step of `unify` or `match` does with two applications of an area: the children of two trees are paired, two sums cancel
// (unifier.rs, `push_children`, `cancel_sums`).
#![tactic(auto)]

pub mod rest; // rest.rt: what is left of two sums
pub mod pushing; // pushing.rt: the children of two trees on the stack, and their number
pub mod roots; // roots.rt: the pair of two roots
