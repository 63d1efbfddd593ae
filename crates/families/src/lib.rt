// The members of a sheet as trees, and whether one of them generalizes a value and its bindings (variants.rs, `complete`).
#![tactic(auto)]

pub mod members; // members.rt: the members as one list of trees of an area
pub mod generalizing; // generalizing.rt: whether a member generalizes, over an area
