// The skeleton of a group, by its marks.
ghost use Rattle.std.specs.Prelude.{true, List, ◌↔◌, ◌≡◌, ℕ, ◌<◌};
ghost use Rattle.xpath.specs.Tree.{Tree};
ghost use Rattle.snippets.specs.Snippets.{Skeleton};
ghost use Rattle.layout.specs.Table.{LEFT, RIGHT, Room};
ghost use Rattle.layout.specs.Words.{word};
ghost use Rattle.machine.specs.Shape.{Shape};
ghost use Rattle.group_marks.specs.Groups.{Group};
ghost use Rattle.skeletons.specs.Skeletons.{Climbs};
ghost use Rattle.group_marks.specs.Steps.{MarkedNode};

use crate::Climb;
use group_marks::blocks::is_empty;
use layout::words::{get, left, parent, right};
use layout::{Groups, Table};

// The word `v` is a node, and that node is marked.
fn is_marked(p: &[u16], n: usize, v: usize) -> bool
    requires { Room n p.now }
    ensures { (result ≡ true) ↔ MarkedNode p.now n v }
{
    v < n && get(p, n, Groups::MARKED, v) % 2 == 1
}

// Both children of node `v` have nodes of the group at or below them.
fn both_marked(p: &[u16], n: usize, v: usize) -> bool
    requires { Room n p.now × (v < n) }
    ensures { (result ≡ true) ↔ (MarkedNode p.now n (word p.now n LEFT v) × MarkedNode p.now n (word p.now n RIGHT v)) }
{
    let a = left(p, n, v);
    let b = right(p, n, v);
    is_marked(p, n, a) && is_marked(p, n, b)
}

// Node `v` has the rank `r` of the group, or both its children have nodes of the group at or below them.
fn belongs(p: &[u16], n: usize, v: usize, r: usize) -> bool
    requires { Room n p.now × (v < n) }
    ensures { (t : Tree) (d : List ℕ) → Group t d n r p.now → (result ≡ true) ↔ Skeleton t d v }
{
    get(p, n, Table::RANK, v) == r || both_marked(p, n, v)
}

// Whether node `v` is in the skeleton. Most ways up pass blocks that have no skeleton node: there a look at the block is enough.
pub fn is_skeleton(p: &[u16], n: usize, v: usize, r: usize) -> bool
    requires { Room n p.now × (v < n) }
    ensures { (t : Tree) (d : List ℕ) → Group t d n r p.now → (result ≡ true) ↔ Skeleton t d v }
{
    !is_empty(p, n, v) && belongs(p, n, v, r)
}

// Up from the skeleton node `y`: none if there is no other skeleton node above it.
pub fn climb(p: &[u16], n: usize, y: usize, r: usize) -> Option<Climb>
    requires { ((t : Tree) × Shape t n p.now) × Room n p.now × (y < n) }
    ensures { Climbs n r y result p.now }
{
    let mut child = y;
    let mut length = 1;
    let mut x = parent(p, n, y);
    while x < n {
        if is_skeleton(p, n, x, r) {
            return Some(Climb {
                node: x,
                length,
                child,
            });
        }
        child = x;
        length += 1;
        x = parent(p, n, x);
    }
    None
}
