// Where the paths of a comparison end among the nodes of one value: at each skeleton node, the positions from which a node of the group is reached inside it, and those from which one is reached outside.
#![tactic(auto)]

pub mod outside;
mod own;
pub mod rising;
