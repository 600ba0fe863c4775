// The ranks that the nodes have where a walk ends: marked in a column, or as the least and the greatest of them.
#![tactic(auto)]

pub mod ends;
pub mod marks;
pub mod ranges;
