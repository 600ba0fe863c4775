// The machine of a comparison: its automaton as words.
#![tactic(auto)]

use limits::Rule;

// Row i of the follow square is the set of the positions that follow i. Each step is in one of the five sets that say what it is; `first` is the set of the positions of the first path, its start among them, and `second` is the start of the second path.
#[derive(Clone, Copy)]
pub struct Machine {
    pub rows: [u16; Rule::MAX_POSITIONS],
    pub left: u16,
    pub right: u16,
    pub leftup: u16,
    pub rightup: u16,
    pub brackets: u16,
    pub last: u16,
    pub first: u16,
    pub second: usize,
}
