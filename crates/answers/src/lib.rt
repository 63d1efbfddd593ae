// What is decided of a sheet, measured, and written where it fits.
#![tactic(auto)]

pub mod deciding; // deciding.rt: what is decided of a sheet
pub mod giving; // giving.rt: a decision measured, and written where it fits
pub mod lines; // lines.rt: the lines of an answer
