// A member's values at the variables of the pairs.
#![tactic(auto)]

mod values; // values.rt: the values of a member as bindings
pub mod members; // members.rt: the pairs by which one member covers
