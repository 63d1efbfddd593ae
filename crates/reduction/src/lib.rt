// Reduction: children first, then one rule at the root.
#![tactic(auto)]

pub mod normalizing; // normalizing.rt: normal forms of trees of an area
