// Members of a sheet against a term (variants.rs).
#![tactic(auto)]

pub mod soundness; // soundness.rt: whether a member is a sound variant of a term
pub mod members; // members.rt: a member's texts as trees of an area, its keys and their values as bindings
