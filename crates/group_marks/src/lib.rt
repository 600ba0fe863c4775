// The marks of a group of nodes of equal value, in a column of a comparison's part: a node is marked if it is in the group or has a node of the group below it, and the blocks of nodes that can have skeleton nodes are noted.
#![tactic(auto)]

pub mod blocks;
pub mod marks;
