// What ends outside of the part of the tree under a child of a skeleton node: above the node, at it, and on its other side.
ghost use Rattle.std.specs.Prelude.{◌≡◌, ◌≢◌, ◌⊎◌, ◌*◌, ◌≤◌, ◌<◌, length};
ghost use Rattle.limits.specs.Limits.{document_nodes};
ghost use Rattle.layout.specs.Groups.{LEFTIN, RIGHTIN};
ghost use Rattle.layout.specs.Part.{PAIRS};
ghost use Rattle.layout.specs.Table.{LEFT, Room};
ghost use Rattle.layout.specs.Words.{word};
ghost use Rattle.group_ends.specs.Steps.{Outside};

use crate::own::own;
use bits::union;
use layout::Groups;
use layout::words::{get, left};
use machine::Machine;

// The positions that come to node `x` from the other side than that of `child`.
fn beside(p: &[u16], n: usize, x: usize, child: usize) -> u16
    requires { (x < n) × Room n p.now }
    ensures { ((word p.now n LEFT x ≡ child) × (result ≡ word p.now n RIGHTIN x)) ⊎ ((word p.now n LEFT x ≢ child) × (result ≡ word p.now n LEFTIN x)) }
{
    if left(p, n, x) == child {
        return get(p, n, Groups::RIGHTIN, x) as u16;
    }
    get(p, n, Groups::LEFTIN, x) as u16
}

// The positions that at node `x` end outside what is under `child`.
pub fn outside(p: &[u16], n: usize, m: Machine, x: usize, child: usize, r: usize) -> u16
    requires { (x < n) × (n ≤ document_nodes) × (PAIRS * n ≤ length p.now) }
    ensures { Outside m n r x child result p.now }
{
    let up = get(p, n, Groups::ABOVE, x) as u16;
    let here = own(p, n, m, x, r);
    let over = beside(p, n, x, child);
    union(up, union(here, over))
}
