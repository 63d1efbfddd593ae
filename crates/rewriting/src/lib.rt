// One rule at the root of a term whose children are reduced (reduction.rs, `root`).
#![tactic(auto)]

pub mod naming; // naming.rt: the rule of a name, and the children that it asks for
pub mod firing; // firing.rt: what a rule makes of the children
