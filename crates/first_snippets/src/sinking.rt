// From above: each skeleton node has its positions that end elsewhere from the next skeleton node above it, and the edge between the two yields its snippets.
ghost use Rattle.std.specs.Prelude.{List, ℕ, ◌≤◌, ◌<◌};
ghost use Rattle.group_ends.specs.Ends.{Given};
ghost use Rattle.group_ends.specs.Steps.{Placed};
ghost use Rattle.first_snippets.specs.Steps.{Sinks, SinksBy, Sank};
ghost use Rattle.skeletons.specs.Skeletons.{Ascent};

use edge_snippets::yields::add_edge;
use group_ends::outside::outside;
use group_marks::blocks::{block_end, is_empty};
use layout::Groups;
use layout::words::{get, put};
use lifting::lower;
use machine::Machine;
use skeletons::Climb;
use skeletons::skeleton::{climb, is_skeleton};

// The skeleton node `v`, which has the edge `c` above it.
fn sink_by(p: &mut [u16], n: usize, b: usize, m: Machine, v: usize, r: usize, first: u16, c: Climb)
    requires { Placed n b r v p.old × Ascent n r v c.node c.length c.child p.old }
    ensures { SinksBy m n b first r v p.old p.new }
{
    let out = outside(p, n, m, c.node, c.child, r);
    let above = lower(p, n, b, v, c.length, out);
    let inside = get(p, n, Groups::IN, v) as u16;
    put(p, n, Groups::ABOVE, v, above as usize);
    add_edge(p, n, b, v, c.length, first, inside, out);
}

// Node `v`, where all before it have been taken.
fn sink_at(p: &mut [u16], n: usize, b: usize, m: Machine, v: usize, r: usize, first: u16)
    requires { Given m n b r p.old × (v < n) }
    ensures { Sinks m n b first r v p.old p.new }
{
    if is_skeleton(p, n, v, r) {
        match climb(p, n, v, r) {
            Some(c) => sink_by(p, n, b, m, v, r, first, c),
            None => put(p, n, Groups::ABOVE, v, 0),
        }
    }
}

// Node `v`, or all nodes from it on of its block if that is empty. The result is where to go on.
fn sink_from(p: &mut [u16], n: usize, b: usize, m: Machine, v: usize, r: usize, first: u16) -> usize
    requires { Given m n b r p.old × (v < n) }
    ensures { (v < result) × (result ≤ n) × ((p₀ : List ℕ) → Sank m n b first r v p₀ p.old → Sank m n b first r result p₀ p.new) }
{
    if is_empty(p, n, v) {
        return block_end(n, v);
    }
    sink_at(p, n, b, m, v, r, first);
    v + 1
}

// All nodes, from the first to the last: what is above a node is before it.
pub fn sink(p: &mut [u16], n: usize, b: usize, m: Machine, r: usize, first: u16)
    requires { Given m n b r p.old }
    ensures { Sank m n b first r n p.old p.new }
{
    let mut v = 0;
    while v < n {
        v = sink_from(p, n, b, m, v, r, first);
    }
}
