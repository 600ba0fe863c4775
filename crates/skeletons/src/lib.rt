// The skeleton of a group of nodes of equal value, by the marks of the group: its nodes with the closest common ancestors of every two of them; and its edges.
#![tactic(auto)]

pub mod skeleton;

// Where the way up from a skeleton node ends: at the first skeleton node above it, by so many edges, and through which child of that node.
#[derive(Clone, Copy)]
pub struct Climb {
    pub node: usize,
    pub length: usize,
    pub child: usize,
}
