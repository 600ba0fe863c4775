// The marks of a group: a node is marked if it is in the group or has a node of the group below it.
ghost use Rattle.std.specs.Prelude.{◌<◌};
ghost use Rattle.xpath.specs.Tree.{Tree};
ghost use Rattle.layout.specs.Table.{Room};
ghost use Rattle.machine.specs.Shape.{Shape};
ghost use Rattle.buckets.specs.Buckets.{Buckets};
ghost use Rattle.group_marks.specs.Groups.{Grouped};
ghost use Rattle.group_marks.specs.Steps.{Marking, Closed, Raised, Joined};

use crate::blocks::note;
use layout::Groups;
use layout::words::{fill, get, parent, put};

// Node `v` alone; the note in the same word stays.
fn mark(p: &mut [u16], n: usize, v: usize)
    requires { Room n p.old × (v < n) }
    ensures { Marking n v p.old p.new }
{
    let word = get(p, n, Groups::MARKED, v);
    put(p, n, Groups::MARKED, v, word / 2 * 2 + 1);
}

// Node `w` and all above it. What is above a marked node is marked already, so the way up ends there, and no node is marked twice for a group. Only where it ends can two marked children meet, so that node's block is noted.
fn mark_up(p: &mut [u16], n: usize, w: usize)
    requires { ((t : Tree) × Shape t n p.old) × Room n p.old × (w < n) × Closed n p.old }
    ensures { Raised n w p.old p.new }
{
    let mut v = w;
    while v < n {
        if get(p, n, Groups::MARKED, v) % 2 == 1 {
            note(p, n, v);
            return;
        }
        mark(p, n, v);
        v = parent(p, n, v);
    }
}

// A node of the group, whose block is noted.
fn mark_member(p: &mut [u16], n: usize, w: usize)
    requires { ((t : Tree) × Shape t n p.old) × Room n p.old × (w < n) × Closed n p.old }
    ensures { Joined n w p.old p.new }
{
    note(p, n, w);
    mark_up(p, n, w);
}

// The marks of the nodes of rank `r`.
pub fn mark_group(p: &mut [u16], n: usize, r: usize)
    requires { ((t : Tree) × Shape t n p.old) × Room n p.old × Buckets n p.old × (r < n) }
    ensures { Grouped n r p.old p.new }
{
    fill(p, n, Groups::MARKED, 0);
    let mut w = get(p, n, Groups::FIRST, r);
    while w < n {
        mark_member(p, n, w);
        w = get(p, n, Groups::NEXT, w);
    }
}
