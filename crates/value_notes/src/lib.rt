// What is noted once of the value of each node of an accepted document: where it begins, and how it is read.
#![tactic(auto)]

pub mod marks;
pub mod notes;
