// Trees in a lent work area: cells, names, kinds, lists.
#![tactic(auto)]

pub mod area; // area.rt: a work area with its sheet and its free end
pub mod cells; // cells.rt: the words of cells, for words alone
pub mod fixed; // fixed.rt: the names that reduction and schemes make
mod iter; // iter.rt: the cells of a list, one after another
pub mod kinds; // kinds.rt: the kinds of cells
mod listing; // listing.rt: lists of an area
pub mod names;
mod reading; // reading.rt: what a cell of an area holds
mod trees; // trees.rt: walks over the trees of an area
mod words; // words.rt: the words of an area above its cells
mod writing; // writing.rt: new cells of an area
