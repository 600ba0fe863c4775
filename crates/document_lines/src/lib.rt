// The lines of a node: their forms, the tree rules from one node to the next, and where the fields of a node lie in an accepted document.
#![tactic(auto)]

pub mod entries;
pub mod lines;
pub mod rules;
