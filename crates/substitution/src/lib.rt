// Occurrence of variables, bindings, and substitution over the trees of an area.
#![tactic(auto)]

pub mod answer; // answer.rt: what a run answers
pub mod bindings; // bindings.rt: a binding looked up
pub mod ground; // ground.rt: trees without variables
pub mod instances; // instances.rt: substitution within a budget of nodes
pub mod occurrence; // occurrence.rt: whether a variable occurs in a tree
pub mod pairing; // pairing.rt: pairs put before a list
pub mod solving; // solving.rt: bindings put into pairs, and composed
