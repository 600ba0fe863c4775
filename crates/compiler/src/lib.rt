// The machine of a comparison, from the bytes of an accepted rule.
#![tactic(auto)]

mod rows;
mod steps;

ghost use Rattle.path_sets.specs.Paths.{TwoPaths};
ghost use Rattle.compiler.specs.Machines.{Known, Machines, Machined};

use automaton::automaton::{Automaton, automaton_of};
use automaton::follow::follow_of;
use bits::square::Square;
use limits::Rule;
use machine::Machine;
use rows::rows_of;
use step_places::places_of;
use steps::{steps_with, up_to};

// The automaton and the square beside it as words, and the steps by the byte that each begins with.
fn machine(s: &[u8], f: Square, a: Automaton, places: [usize; Rule::MAX_POSITIONS]) -> Machine
    requires { Known s.now f a places }
    ensures { Machines s.now f a places result }
{
    let n = a.count;
    Machine {
        rows: rows_of(f),
        left: steps_with(s, places, n, b'l'),
        right: steps_with(s, places, n, b'r'),
        leftup: steps_with(s, places, n, b'L'),
        rightup: steps_with(s, places, n, b'R'),
        brackets: steps_with(s, places, n, b'['),
        last: a.last,
        first: up_to(a.middle),
        second: n + 1,
    }
}

// The paths that stand at the two offsets. Without a second offset the second path is empty.
pub fn machine_of(s: &[u8], at: usize, behind: Option<usize>) -> Machine
    requires { TwoPaths s.now at behind }
    ensures { Machined s.now at behind result }
{
    let f = follow_of(s, at, behind);
    let a = automaton_of(s, at, behind);
    machine(s, f, a, places_of(s, at, behind))
}
