// The pairs that meet a snippet from an end of its edge.
ghost use Rattle.std.specs.Prelude.{◌+◌, ◌≤◌, ◌<◌, length};
ghost use Rattle.limits.specs.Limits.{positions};
ghost use Rattle.matrices.specs.Matrices.{Apart, Drawing};
ghost use Rattle.pairs.specs.Growing.{Ready, Planted, Grown, Met, Everywhere};

use crate::widen::widen;
use layout::Table;
use layout::places::{down_at, loop_at, pair_at, snippet_at, up_at};
use layout::words::get;
use matrices::is_empty;

// Adds to the matrix at `at` the pairs that meet a snippet of the matrix at `by`, where the matrix at `up` leads to its upper end and the one at `down` to its lower end.
fn plant(p: &mut [u16], by: usize, up: usize, down: usize, at: usize)
    requires { Apart by at × Apart up at × Apart down at × (by + positions ≤ length p.old) × (up + positions ≤ length p.old) × (down + positions ≤ length p.old) × (at + positions ≤ length p.old) }
    ensures { Drawing (Planted p.old at by up down) at positions p.old p.new }
{
    widen(p, up, by, false, down, at);
    widen(p, down, by, true, up, at);
}

// At both ends of the edge between node `y` and its parent.
fn plant_ends(p: &mut [u16], n: usize, y: usize)
    requires { Ready n p.old × (0 < y) × (y < n) }
    ensures { Grown n p.old p.new × Met n p.new y }
{
    let x = get(p, n, Table::PARENT, y);
    let by = snippet_at(n, y);
    plant(p, by, loop_at(n, x), down_at(n, y), pair_at(n, x));
    plant(p, by, up_at(n, y), loop_at(n, y), pair_at(n, y));
}

// The same, at once where the edge has no snippets.
fn seed_edge(p: &mut [u16], n: usize, y: usize)
    requires { Ready n p.old × (0 < y) × (y < n) }
    ensures { Grown n p.old p.new × Met n p.new y }
{
    let by = snippet_at(n, y);
    if is_empty(p, by) {
        return;
    }
    plant_ends(p, n, y);
}

// At every edge.
pub fn seed(p: &mut [u16], n: usize)
    requires { Ready n p.old }
    ensures { Grown n p.old p.new × Everywhere (Met n p.new) n }
{
    for y in 1..n {
        seed_edge(p, n, y);
    }
}
