// Kind `complete` (variants.rs).
#![tactic(auto)]

pub mod completing; // completing.rt: kind `complete` over an area
mod judging; // judging.rt: what the schemes decide, over an area
