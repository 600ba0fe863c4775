// From below: each skeleton node has its positions from the next skeleton nodes below it, and hands them up.
ghost use Rattle.std.specs.Prelude.{List, ℕ, suc, ◌*◌, ◌≤◌, ◌<◌, length};
ghost use Rattle.limits.specs.Limits.{document_nodes};
ghost use Rattle.xpath.specs.Syntax.{XPath};
ghost use Rattle.xpath.specs.Tree.{Tree};
ghost use Rattle.snippets.specs.Snippets.{Skeleton};
ghost use Rattle.snippets.specs.Ways.{In};
ghost use Rattle.layout.specs.Part.{PAIRS};
ghost use Rattle.layout.specs.Table.{Room};
ghost use Rattle.powers.specs.Powers.{Ready};
ghost use Rattle.group_marks.specs.Groups.{Ranks};
ghost use Rattle.matrices.specs.Matrices.{Exactly};
ghost use Rattle.group_ends.specs.Ends.{Given, Sides};
ghost use Rattle.group_ends.specs.Steps.{Placed, Cleared, Handed, Rises, Rose};

use crate::own::own;
use bits::union;
use group_marks::blocks::{block_end, block_start, is_empty};
use layout::Groups;
use layout::words::{get, left, put};
use lifting::lift;
use machine::Machine;
use skeletons::skeleton::{climb, is_skeleton};

// Nothing has been handed up to node `v`; what stands at the nodes of an empty block is never read. The result is where to go on.
fn clear_from(p: &mut [u16], n: usize, v: usize) -> usize
    requires { Room n p.old × (v < n) × (n ≤ document_nodes) }
    ensures { (v < result) × ((p₀ : List ℕ) → Cleared n v p₀ p.old → Cleared n result p₀ p.new) }
{
    if is_empty(p, n, v) {
        return block_end(n, v);
    }
    put(p, n, Groups::LEFTIN, v, 0);
    put(p, n, Groups::RIGHTIN, v, 0);
    v + 1
}

// Nothing has been handed up yet.
fn clear(p: &mut [u16], n: usize)
    requires { Room n p.old × (n ≤ document_nodes) }
    ensures { Cleared n n p.old p.new }
{
    let mut v = 0;
    while v < n {
        v = clear_from(p, n, v);
    }
}

// The positions that at node `v` end at or below it.
fn gathered(p: &[u16], n: usize, m: Machine, v: usize, r: usize) -> u16
    requires { (v < n) × (n ≤ document_nodes) × (PAIRS * n ≤ length p.now) }
    ensures { (P R : XPath) (t : Tree) (d : List ℕ) → Ready P R t m n p.now → Ranks t d n r p.now → Skeleton t d v → Sides P R t d n p.now (suc v) → Exactly result (In t P R d v) }
{
    let here = own(p, n, m, v, r);
    let a = get(p, n, Groups::LEFTIN, v) as u16;
    let b = get(p, n, Groups::RIGHTIN, v) as u16;
    union(union(here, a), b)
}

// The skeleton node `v` hands the members of `set` up to the next skeleton node above it, if there is one.
fn hand_up(p: &mut [u16], n: usize, b: usize, v: usize, r: usize, set: u16)
    requires { Placed n b r v p.old }
    ensures { Handed n b r v set p.old p.new }
{
    if let Some(c) = climb(p, n, v, r) {
        let w = lift(p, n, b, v, c.length, set);
        if left(p, n, c.node) == c.child {
            put(p, n, Groups::LEFTIN, c.node, w as usize);
        } else {
            put(p, n, Groups::RIGHTIN, c.node, w as usize);
        }
    }
}

// Node `v`, where all behind it have been taken.
fn rise_at(p: &mut [u16], n: usize, b: usize, m: Machine, v: usize, r: usize)
    requires { Given m n b r p.old × (v < n) }
    ensures { Rises m n b r (suc v) v p.old p.new }
{
    if is_skeleton(p, n, v, r) {
        let set = gathered(p, n, m, v, r);
        put(p, n, Groups::IN, v, set as usize);
        hand_up(p, n, b, v, r, set);
    }
}

// Node `v`, or all nodes up to it of its block if that is empty. The result is the first node that has been taken.
fn rise_from(p: &mut [u16], n: usize, b: usize, m: Machine, v: usize, r: usize) -> usize
    requires { Given m n b r p.old × (v < n) }
    ensures { (result ≤ v) × Rises m n b r (suc v) result p.old p.new }
{
    if is_empty(p, n, v) {
        return block_start(v);
    }
    rise_at(p, n, b, m, v, r);
    v
}

// All nodes, from the last to the first: what is below a node is behind it.
pub fn rise(p: &mut [u16], n: usize, b: usize, m: Machine, r: usize)
    requires { Given m n b r p.old }
    ensures { Rose m n b r p.old p.new }
{
    clear(p, n);
    let mut v = n;
    while 0 < v {
        v = rise_from(p, n, b, m, v - 1, r);
    }
}
