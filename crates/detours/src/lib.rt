// The matrix of a node, of which position comes to which there: what it has at the start, and what it gains by the detours over a neighbour.
#![tactic(auto)]

pub mod begin;
pub mod place;
pub mod visit;
