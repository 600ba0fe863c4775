// Where the matrices and the blocks of a comparison's part begin.
ghost use Rattle.std.specs.Prelude.{◌≡◌, ◌≤◌, ◌<◌};
ghost use Rattle.limits.specs.Limits.{document_nodes, node_digits};
ghost use Rattle.layout.specs.Part.{loop_at, pair_at};
ghost use Rattle.layout.specs.Blocks.{block_at, down_at, up_at, snippet_at};

use crate::{Blocks, Part};
use limits::Rule;

// Which position comes to which from node `v` back to it.
pub fn loop_at(n: usize, v: usize) -> usize
    requires { (n ≤ document_nodes) × (v ≤ n) }
    ensures { result ≡ loop_at n v }
{
    Part::LOOPS * n + Rule::MAX_POSITIONS * v
}

// The settled pairs of node `v`. One line like that of `loop_at`, in another column: a helper for both would be no shorter.
pub fn pair_at(n: usize, v: usize) -> usize
    requires { (n ≤ document_nodes) × (v < n) }
    ensures { result ≡ pair_at n v }
{
    Part::PAIRS * n + Rule::MAX_POSITIONS * v
}

// The words of exponent `k` and node `y`.
pub fn block_at(n: usize, k: usize, y: usize) -> usize
    requires { (y < n) × (n ≤ document_nodes) × (k < node_digits) }
    ensures { result ≡ block_at n k y }
{
    Blocks::COLUMN * n + Blocks::WORDS * (k * n + y)
}

// From the parent of node `y` down to it.
pub fn down_at(n: usize, y: usize) -> usize
    requires { (n ≤ document_nodes) × (y < n) }
    ensures { result ≡ down_at n 0 y }
{
    block_at(n, 0, y) + Blocks::DOWN
}

// From node `y` up to its parent.
pub fn up_at(n: usize, y: usize) -> usize
    requires { (n ≤ document_nodes) × (y < n) }
    ensures { result ≡ up_at n 0 y }
{
    block_at(n, 0, y) + Blocks::UP
}

// The snippets of power 0 between node `y` and its parent.
pub fn snippet_at(n: usize, y: usize) -> usize
    requires { (n ≤ document_nodes) × (y < n) }
    ensures { result ≡ snippet_at n 0 y }
{
    block_at(n, 0, y) + Blocks::SNIPPETS
}
