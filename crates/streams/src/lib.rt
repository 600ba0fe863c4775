// The two ends of a session: whether the input is too long, where the rule and the document stand in it, and which nodes the output has.
#![tactic(auto)]

ghost use Rattle.std.specs.Prelude.{◌≡◌, true, ◌↔◌, ◌<◌, length};
ghost use Rattle.limits.specs.Limits.{program_input};
ghost use Rattle.streams.specs.Input.{SplitAt};
ghost use Rattle.streams.specs.Output.{NextMarked};

use limits::Program;

const LF: u8 = 10;

// Whether the input has more bytes than are read.
pub fn is_longer(input: &[u8]) -> bool
    ensures { (result ≡ true) ↔ (program_input < length input.now) }
{
    input.len() > Program::MAX_INPUT
}

// Where the rule ends, and where the document begins.
#[derive(Clone, Copy)]
pub struct Bounds {
    pub rule: usize,
    pub document: usize,
}

// The rule ends at the first LF, and the document begins behind it; without an LF all of the input is the rule.
pub fn split(input: &[u8]) -> Bounds
    ensures { SplitAt input.now result.rule result.document }
{
    match input.iter().position(|b| *b == LF) {
        Some(i) => Bounds {
            rule: i,
            document: i + 1,
        },
        None => Bounds {
            rule: input.len(),
            document: input.len(),
        },
    }
}

// The first marked node at or behind a node, or the end of the marks.
pub fn next_marked(marks: &[u8], from: usize) -> usize
    ensures { NextMarked marks.now from result }
{
    (from..marks.len())
        .find(|node| marks[*node] == 1)
        .unwrap_or(marks.len())
}
