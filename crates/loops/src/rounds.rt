// A round over all nodes: the matrices grow by the detours over their neighbours.
ghost use Rattle.std.specs.Prelude.{Bool, ◌≡◌, ◌<◌};
ghost use Rattle.detours.specs.Detours.{OnSide, downs, ups};
ghost use Rattle.detours.specs.Visits.{Ready};
ghost use Rattle.loops.specs.Growing.{Passed, Rises, Falls, Everywhere, Settled};

use detours::place::{above, is_left};
use detours::visit::visit;
use layout::places::loop_at;
use machine::Machine;

// The steps down to `v` from its parent, and those up from it, by the side that `v` is on.
fn steps(p: &[u16], n: usize, m: Machine, v: usize) -> (u16, u16)
    requires { Ready n p.now × (0 < v) × (v < n) }
    ensures { (side : Bool) × OnSide p.now n v side × (result ≡ (downs m side, ups m side)) }
{
    if is_left(p, n, v) {
        return (m.left, m.leftup);
    }
    (m.right, m.rightup)
}

// The matrix of the parent of `v` grows by the detours over `v`.
fn climb(p: &mut [u16], n: usize, m: Machine, v: usize) -> usize
    requires { Ready n p.old × (0 < v) × (v < n) }
    ensures { Passed (Rises m n p.old v) m n p.old p.new result }
{
    let here = loop_at(n, v);
    let there = above(p, n, v);
    let (down, up) = steps(p, n, m, v);
    visit(p, m, here, there, down, up)
}

// The matrix of `v` grows by the detours over its parent.
fn descend(p: &mut [u16], n: usize, m: Machine, v: usize) -> usize
    requires { Ready n p.old × (0 < v) × (v < n) }
    ensures { Passed (Falls m n p.old v) m n p.old p.new result }
{
    let here = loop_at(n, v);
    let there = above(p, n, v);
    let (down, up) = steps(p, n, m, v);
    visit(p, m, there, here, up, down)
}

// From the last node up to the root.
fn upwards(p: &mut [u16], n: usize, m: Machine) -> usize
    requires { Ready n p.old × (0 < n) }
    ensures { Passed (Everywhere (Rises m n p.old) n) m n p.old p.new result }
{
    let mut r: usize = 0;
    for v in (1..n).rev() {
        r += climb(p, n, m, v);
    }
    r
}

// From the root down to the last node.
fn downwards(p: &mut [u16], n: usize, m: Machine) -> usize
    requires { Ready n p.old × (0 < n) }
    ensures { Passed (Everywhere (Falls m n p.old) n) m n p.old p.new result }
{
    let mut r: usize = 0;
    for v in 1..n {
        r += descend(p, n, m, v);
    }
    r
}

// Both ways. Gives 0 only if nothing changed.
pub fn round(p: &mut [u16], n: usize, m: Machine) -> usize
    requires { Ready n p.old × (0 < n) }
    ensures { Passed (Settled m n p.old) m n p.old p.new result }
{
    let up = upwards(p, n, m);
    let down = downwards(p, n, m);
    up + down
}
