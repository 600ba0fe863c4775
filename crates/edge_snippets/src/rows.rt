// Pairs of positions that belong to different paths, added to a matrix.
ghost use Rattle.std.specs.Prelude.{◌≡◌, true, ◌⊎◌, ◌↔◌, ℕ, ◌+◌, ◌≤◌, ◌<◌, length};
ghost use Rattle.limits.specs.Limits.{positions};
ghost use Rattle.bits.specs.Sets.{bit};
ghost use Rattle.matrices.specs.Matrices.{Drawing};
ghost use Rattle.edge_snippets.specs.Edges.{Opposite, Crossed};

use bits::{has, meet, union};
use limits::Rule;
use matrices::sets::without;

// The members of `set` that are of the other path than `i`.
fn across(set: u16, first: u16, i: u16) -> u16
    requires { i < positions }
    ensures { (j : ℕ) → (bit result j ≡ true) ↔ ((bit set j ≡ true) × Opposite first i j) }
{
    if has(first, i) {
        return without(set, first);
    }
    meet(set, first)
}

// Row `i`, with those members added if `rows` has `i`.
fn widened(row: u16, rows: u16, set: u16, first: u16, i: u16) -> u16
    requires { i < positions }
    ensures { (j : ℕ) → (bit result j ≡ true) ↔ ((bit row j ≡ true) ⊎ ((bit rows i ≡ true) × (bit set j ≡ true) × Opposite first i j)) }
{
    if has(rows, i) {
        return union(row, across(set, first, i));
    }
    row
}

// Adds the pairs of a member of `rows` and a member of `set`. The members of `first` are the positions of the first path.
pub fn add_rows(p: &mut [u16], at: usize, rows: u16, set: u16, first: u16)
    requires { at + positions ≤ length p.old }
    ensures { Drawing (Crossed p.old at rows set first) at positions p.old p.new }
{
    for i in 0..Rule::MAX_POSITIONS {
        p[at + i] = widened(p[at + i], rows, set, first, i as u16);
    }
}
