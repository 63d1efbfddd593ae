// The schemes of a term, one at a time (variants.rs, `schemes` and `system`).
#![tactic(auto)]

pub mod systems; // systems.rt: the value and the system of a scheme
mod patterns; // patterns.rt: trees with fixed names
mod firing; // firing.rt: a rule that fires, with its equations
pub mod counting; // counting.rt: the choices at a root, and the count of schemes
mod choosing; // choosing.rt: the choices for a list of trees, by an index
