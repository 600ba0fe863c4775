// The snippets that one edge of a skeleton yields directly: added to the snippets' rows of a comparison's part.
#![tactic(auto)]

mod rows;
pub mod yields;
