// The sets of a path, from the bytes of an accepted rule: whether its empty word belongs to it, which of its steps may come first and last, and how many it has.
#![tactic(auto)]

pub mod scan;
pub mod sets;
