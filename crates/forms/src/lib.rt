// A sheet as a form: its kind, its fuel, its terms, and where its pairs and members stand.
#![tactic(auto)]

pub mod form; // form.rt: the kinds of sheet
mod members; // members.rt: the members of a sheet
