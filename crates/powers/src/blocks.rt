// The words of a power, a block for each exponent and node.
ghost use Rattle.std.specs.Prelude.{◌≡◌, ◌↔◌, ℕ, ◌+◌, ◌≤◌, ◌<◌, length, get_or};
ghost use Rattle.limits.specs.Limits.{positions, word_values};
ghost use Rattle.layout.specs.Blocks.{upper_at};
ghost use Rattle.layout.specs.Words.{NONE};
ghost use Rattle.matrices.specs.Matrices.{Related, Redrawn};
ghost use Rattle.powers.specs.Blocks.{Fits, Only, Crossed, Edge, Twice};

use bits::meet;
use layout::places::{block_at, loop_at};
use layout::{Blocks, Table};
use limits::Rule;
use machine::Machine;
use matrices::followers::followers;
use matrices::{compose, image};

// The node 2^k above node `y`, or none: the word of its block as it stands, since `twice` hands it on as it is.
pub fn upper(p: &[u16], n: usize, k: usize, y: usize) -> usize
    requires { Fits n k y p.now }
    ensures { (result ≡ get_or p.now (upper_at n k y) 0) × (result < word_values) }
{
    let at = block_at(n, k, y);
    p[at + Blocks::UPPER] as usize
}

// There is no node 2^k above node `y`.
pub fn none(p: &mut [u16], n: usize, k: usize, y: usize)
    requires { Fits n k y p.old }
    ensures { Only n k y p.old p.new × (get_or p.new (upper_at n k y) 0 ≡ NONE) }
{
    let at = block_at(n, k, y);
    p[at + Blocks::UPPER] = Table::NONE as u16;
}

// The matrix at `c` becomes the one at `a`, followed by the steps of `w`, followed by the one at `b`.
fn cross(p: &mut [u16], rows: [u16; Rule::MAX_POSITIONS], a: usize, w: u16, b: usize, c: usize)
    requires { (a + positions ≤ c) × (b + positions ≤ c) × (c + positions ≤ length p.old) }
    ensures { Redrawn c p.old p.new × ((i j : ℕ) → i < positions → j < positions → Related p.new c i j ↔ Crossed rows p.old a w b i j) }
{
    for i in 0..Rule::MAX_POSITIONS {
        let next = meet(followers(rows, p[a + i]), w);
        p[c + i] = image(p, b, next);
    }
}

// Exponent 0: node `y` and its parent `x`, with the steps between them.
pub fn edge(p: &mut [u16], n: usize, m: Machine, x: usize, y: usize, down: u16, up: u16)
    requires { (x < n) × Fits n 0 y p.old }
    ensures { Edge m n x y down up p.old p.new }
{
    let rows = m.rows;
    let at = block_at(n, 0, y);
    let above = loop_at(n, x);
    let below = loop_at(n, y);
    cross(p, rows, above, down, below, at);
    cross(p, rows, below, up, above, at + Blocks::UP);
    p[at + Blocks::UPPER] = x as u16;
}

// Exponent `k` + 1: from node `y` over node `h`. Where there is none above `h`, the two matrices say nothing.
pub fn twice(p: &mut [u16], n: usize, k: usize, h: usize, y: usize)
    requires { (h < n) × Fits n (k + 1) y p.old }
    ensures { Twice n k h y p.old p.new }
{
    let x = upper(p, n, k, h);
    let at = block_at(n, k + 1, y);
    let above = block_at(n, k, h);
    let below = block_at(n, k, y);
    compose(p, above, below, at);
    compose(p, below + Blocks::UP, above + Blocks::UP, at + Blocks::UP);
    p[at + Blocks::UPPER] = x as u16;
}
