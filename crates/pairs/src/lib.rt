// The pairs of positions of a node, one of each path of a comparison, as a matrix: those that end at the node, those that meet a snippet from an end of its edge, and those that come to the pairs of another matrix.
#![tactic(auto)]

pub mod seeds;
pub mod start;
pub mod widen;
