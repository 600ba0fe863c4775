// The position automaton (Glushkov) of a comparison's paths, from the bytes of an accepted rule.
#![tactic(auto)]

pub mod automaton;
pub mod follow;
pub mod relation;
