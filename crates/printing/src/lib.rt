// Texts put into an output: written there, or only measured.
#![tactic(auto)]

pub mod output; // output.rt: an output with its place and its pass
mod putting; // putting.rt: a text, a name or a number
mod ending; // ending.rt: the end of a line; lines of a word or a number
mod terms; // terms.rt: a term, and a line of one
