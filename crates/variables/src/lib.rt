// The variables of trees: in byte order, as lists of cells, and the pairs of trees that two lists of bindings give them.
#![tactic(auto)]

pub mod pairing; // pairing.rt: at each variable the trees of two lists of bindings
pub mod listing; // listing.rt: variables as a list of cells
pub mod gathering; // gathering.rt: the variables of trees in byte order, as places
