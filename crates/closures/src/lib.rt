// The reflexive and transitive closure of a matrix: Warshall's way, a whole row at a time.
#![tactic(auto)]

ghost use Rattle.std.specs.Prelude.{◌≡◌, true, ◌⊎◌, ◌↔◌, ℕ, ◌+◌, ◌≤◌, ◌<◌, length};
ghost use Rattle.limits.specs.Limits.{positions};
ghost use Rattle.bits.specs.Sets.{bit};
ghost use Rattle.matrices.specs.Matrices.{Related, Redrawn, Drawing};
ghost use Rattle.closures.specs.Closures.{Chain, Reflexive, Through};

use bits::{has, insert, union};
use limits::Rule;

// Each position is related to itself, too.
fn reflect(p: &mut [u16], at: usize)
    requires { at + positions ≤ length p.old }
    ensures { Drawing (Reflexive (Related p.old at)) at positions p.old p.new }
{
    for i in 0..Rule::MAX_POSITIONS {
        p[at + i] = insert(p[at + i], i as u16);
    }
}

// A row with the row of `k` added, where it has `k`.
fn widened(row: u16, k: u16, added: u16) -> u16
    requires { k < positions }
    ensures { (j : ℕ) → (bit result j ≡ true) ↔ ((bit row j ≡ true) ⊎ ((bit row k ≡ true) × (bit added j ≡ true))) }
{
    if has(row, k) {
        return union(row, added);
    }
    row
}

// What is related by way of `k` is related.
fn join(p: &mut [u16], at: usize, k: usize)
    requires { (at + positions ≤ length p.old) × (k < positions) }
    ensures { Drawing (Through (Related p.old at) k) at positions p.old p.new }
{
    let added = p[at + k];
    for i in 0..Rule::MAX_POSITIONS {
        p[at + i] = widened(p[at + i], k as u16, added);
    }
}

// The matrix becomes its reflexive and transitive closure.
pub fn close(p: &mut [u16], at: usize)
    requires { at + positions ≤ length p.old }
    ensures { Redrawn at p.old p.new × ((i j : ℕ) → i < positions → j < positions → Related p.new at i j ↔ Chain (λ i j. Related p.old at i j) i j) }
{
    reflect(p, at);
    for k in 0..Rule::MAX_POSITIONS {
        join(p, at, k);
    }
}
