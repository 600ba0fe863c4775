// Blocks of 16 nodes. The few that can have skeleton nodes are noted while the group is marked, so that all others are passed over in one step.
ghost use Rattle.std.specs.Prelude.{true, ◌≡◌, ℕ, ◌/◌, ◌≤◌, ◌<◌};
ghost use Rattle.limits.specs.Limits.{document_nodes};
ghost use Rattle.layout.specs.Groups.{BLOCK};
ghost use Rattle.layout.specs.Table.{Room};
ghost use Rattle.group_marks.specs.Groups.{IsNoted};
ghost use Rattle.group_marks.specs.Steps.{Noting};

use layout::Groups;
use layout::words::{get, put};

// Notes the block of node `v`; the mark in the same word stays.
pub fn note(p: &mut [u16], n: usize, v: usize)
    requires { Room n p.old × (v < n) }
    ensures { Noting n v p.old p.new }
{
    let b = v / Groups::BLOCK;
    let word = get(p, n, Groups::MARKED, b);
    put(p, n, Groups::MARKED, b, word % 2 + 2);
}

// Whether the block of node `v` is not noted: then no node in it is in the skeleton.
pub fn is_empty(p: &[u16], n: usize, v: usize) -> bool
    requires { Room n p.now × (v < n) }
    ensures { result ≡ true → ¬ IsNoted p.now n v }
{
    get(p, n, Groups::MARKED, v / Groups::BLOCK) < 2
}

// The first node of the block of node `v`.
pub fn block_start(v: usize) -> usize
    ensures { (result ≤ v) × ((u : ℕ) → result ≤ u → u ≤ v → u / BLOCK ≡ v / BLOCK) }
{
    v / Groups::BLOCK * Groups::BLOCK
}

// The first node behind the block of node `v`, or the number of nodes.
pub fn block_end(n: usize, v: usize) -> usize
    requires { (v < n) × (n ≤ document_nodes) }
    ensures { (v < result) × (result ≤ n) × ((u : ℕ) → v ≤ u → u < result → u / BLOCK ≡ v / BLOCK) }
{
    let next = (v / Groups::BLOCK + 1) * Groups::BLOCK;
    next.min(n)
}
