// The walk backwards: from positions at a node to all that walk to them, so that each position is visited once at each node, with notes of what is new.
#![tactic(auto)]

pub mod bounds;
mod notes;
mod predecessors;
mod retrace;
pub mod seeds;
pub mod spread;
