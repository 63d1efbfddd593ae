// The variables of a term with one above their indices, and the fresh variables from there on (variants.rs, `complete`).
#![tactic(auto)]

pub mod naming; // naming.rt: the variables of a term as a list of cells, with the base
pub mod cells; // cells.rt: the fresh variables as cells
mod indices; // indices.rt: the indices of variables
mod searching; // searching.rt: texts in the sheet, and names of fresh variables
