// The pairs of positions spread over the edges of the tree: in rounds over all nodes, each gets what comes to the pairs of its neighbours, until a round changes nothing.
#![tactic(auto)]

ghost use Rattle.std.specs.Prelude.{◌<◌};
ghost use Rattle.pairs.specs.Growing.{Ready, Grown, Everywhere};
ghost use Rattle.pair_rounds.specs.Rounds.{Passed, Rises, Falls, Still};

use layout::Table;
use layout::places::{down_at, pair_at, up_at};
use layout::words::get;
use pairs::widen::widen;

// The parent of node `y` gets what comes to the pairs of `y`.
fn rise(p: &mut [u16], n: usize, y: usize) -> usize
    requires { Ready n p.old × (0 < y) × (y < n) }
    ensures { Passed (Rises n p.old y) n p.old p.new result }
{
    let x = get(p, n, Table::PARENT, y);
    let edge = down_at(n, y);
    widen(p, edge, pair_at(n, y), false, edge, pair_at(n, x))
}

// Node `y` gets what comes to the pairs of its parent.
// Not one function with `rise`: the edge and both its ends are others, and those are all that the call of `widen` is given.
fn fall(p: &mut [u16], n: usize, y: usize) -> usize
    requires { Ready n p.old × (0 < y) × (y < n) }
    ensures { Passed (Falls n p.old y) n p.old p.new result }
{
    let x = get(p, n, Table::PARENT, y);
    let edge = up_at(n, y);
    widen(p, edge, pair_at(n, x), false, edge, pair_at(n, y))
}

// From the last node up to the root.
fn upwards(p: &mut [u16], n: usize) -> usize
    requires { Ready n p.old }
    ensures { Passed (Everywhere (Rises n p.old) n) n p.old p.new result }
{
    let mut r: usize = 0;
    for y in (1..n).rev() {
        r += rise(p, n, y);
    }
    r
}

// From the root down to the last node.
// Not one function with `upwards`: it would take the order and the step, and its contract would have to speak of any.
fn downwards(p: &mut [u16], n: usize) -> usize
    requires { Ready n p.old }
    ensures { Passed (Everywhere (Falls n p.old) n) n p.old p.new result }
{
    let mut r: usize = 0;
    for y in 1..n {
        r += fall(p, n, y);
    }
    r
}

// Both ways. Gives 0 only if nothing changed.
fn round(p: &mut [u16], n: usize) -> usize
    requires { Ready n p.old }
    ensures { Passed (Still n p.old) n p.old p.new result }
{
    let up = upwards(p, n);
    let down = downwards(p, n);
    up + down
}

// Rounds, until one changes nothing. The first is always made.
pub fn spread(p: &mut [u16], n: usize)
    requires { Ready n p.old }
    ensures { Grown n p.old p.new × Still n p.new }
{
    let mut r: usize = 1;
    while 0 < r {
        r = round(p, n);
    }
}
