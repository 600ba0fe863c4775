// One entry of the work list: where a step comes from that leads to its node by one of its positions.
ghost use Rattle.std.specs.Prelude.{◌≡◌, true, ◌↔◌, ℕ, ◌<◌};
ghost use Rattle.bits.specs.Sets.{bit};
ghost use Rattle.matrices.specs.Matrices.{Exactly};
ghost use Rattle.layout.specs.Part.{NODES, Space};
ghost use Rattle.reach.specs.Work.{Work, Added};
ghost use Rattle.retracing.specs.Backward.{LinkedBothWays, Descends, Sources, Into, Before};

use crate::predecessors::predecessors;
use bits::{meet, union};
use layout::words::get;
use layout::{Part, Table};
use limits::Rule;
use machine::Machine;
use reach::expand::if_linked;
use reach::list::{add, entry_at};

// The steps that lead from the parent `v`, if that is a node, down to node `u`.
fn downward(p: &[u16], n: usize, m: Machine, v: usize, u: usize) -> u16
    requires { Space n p.now }
    ensures { v < n → (j : ℕ) → (bit result j ≡ true) ↔ Descends m n p.now v u j }
{
    if n <= v {
        return 0;
    }
    let left = if_linked(p, n, Table::LEFT, v, u, m.left);
    let right = if_linked(p, n, Table::RIGHT, v, u, m.right);
    union(left, right)
}

// The positions that one of `s` follows which is one of `steps` too. Mostly there is none, and then no row is looked at.
fn sources(rows: [u16; Rule::MAX_POSITIONS], s: u16, steps: u16) -> u16
    ensures { Exactly result (Sources rows s steps) }
{
    let w = meet(s, steps);
    if w == 0 {
        return 0;
    }
    predecessors(rows, w)
}

// What comes to a position of `s` at node `u` by one step: a step up comes from a child, one down from the parent.
fn lead_in(p: &mut [u16], n: usize, m: Machine, u: usize, s: u16, len: usize) -> usize
    requires { Work n len p.old × LinkedBothWays n p.old × (u < n) }
    ensures { Added (Into m n p.old u s) n NODES len result p.old p.new }
{
    let left = get(p, n, Table::LEFT, u);
    let right = get(p, n, Table::RIGHT, u);
    let parent = get(p, n, Table::PARENT, u);
    let stays = get(p, n, Part::STAYS, u) as u16;
    let rows = m.rows;
    let down = downward(p, n, m, parent, u);
    let a = add(p, n, u, sources(rows, s, stays), len);
    let b = add(p, n, left, sources(rows, s, m.leftup), a);
    let c = add(p, n, right, sources(rows, s, m.rightup), b);
    add(p, n, parent, sources(rows, s, down), c)
}

// What comes to entry `h`, added to the list.
pub fn retrace(p: &mut [u16], n: usize, m: Machine, h: usize, len: usize) -> usize
    requires { Work n len p.old × LinkedBothWays n p.old × (h < len) }
    ensures { Added (Before m n p.old h) n NODES len result p.old p.new }
{
    let e = entry_at(p, n, h, len);
    lead_in(p, n, m, e.node, e.set, len)
}
