// What every reader of a rule answers: behind its part, or why there is none; and the tally that it hands on.

// How many tests may still begin, where the first test too many begins, and the first comparison or count of too many steps.
#[derive(Clone, Copy)]
pub struct Tally {
    pub left: usize,
    pub crowded: usize,
    pub heavy: usize,
}

// Where the part ends, with the steps and the tally up to there.
#[derive(Clone, Copy)]
pub struct Behind {
    pub next: usize,
    pub steps: usize,
    pub tally: Tally,
}

// Where no rule goes on so, or where a part too deep begins.
#[derive(Clone, Copy)]
pub enum Refusal {
    Stuck(usize),
    Deep(usize),
}
