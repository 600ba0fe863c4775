// The order of the compared values of two nodes, and of a node's value and a constant.
#![tactic(auto)]

pub mod comparison;
pub mod constant;
mod cursors;
mod passing;
mod stretches;
