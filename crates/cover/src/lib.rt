// Kind `cover`: whether a member covers the solved pairs of a sheet (unifier.rs, `Principal::covered`).
#![tactic(auto)]

pub mod covered; // covered.rt: the pairs unified, and the members, over an area
mod covering; // covering.rt: whether one of the members covers, over an area
