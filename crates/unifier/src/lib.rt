// Unification of the trees of an area (unifier.rs, `unify`).
#![tactic(auto)]

pub mod unifying; // unifying.rt: `unify`
