// The readers of a rule: of a test and of a path, from an offset up to its end or to where it does not read, with a tally of the tests, comparisons and counts on the way.
#![tactic(auto)]

pub mod readers;
pub mod tally;
