// One matrix grows by the pairs that come to those of another.
ghost use Rattle.std.specs.Prelude.{◌≡◌, true, ℕ, ◌+◌, ◌≤◌, ◌<◌, length};
ghost use Rattle.limits.specs.Limits.{positions};
ghost use Rattle.bits.specs.Sets.{bit};
ghost use Rattle.matrices.specs.Matrices.{Exactly, Apart};
ghost use Rattle.matrices.specs.Widening.{Widening};
ghost use Rattle.pairs.specs.Derived.{Turned, Over};
ghost use Rattle.pairs.specs.Growing.{Widened};

use limits::Rule;
use matrices::rows::add;
use matrices::{before, image};

// What the members of `w` are related to by the matrix at `by`, or what is related to them.
fn partners(p: &[u16], by: usize, back: bool, w: u16) -> u16
    requires { by + positions ≤ length p.now }
    ensures { Exactly result (λ j. (i : ℕ) × (i < positions) × (bit w i ≡ true) × Turned back p.now by i j) }
{
    if back {
        return before(p, by, w);
    }
    image(p, by, w)
}

// The positions that make a pair with `a`: both come to a pair of the matrix at `by`.
fn row(p: &[u16], from: usize, by: usize, back: bool, to: usize, a: usize) -> u16
    requires { (from + positions ≤ length p.now) × (by + positions ≤ length p.now) × (to + positions ≤ length p.now) × (a < positions) }
    ensures { Exactly result (Over (Turned back p.now by) p.now from to a) }
{
    let w = p[from + a];
    let there = partners(p, by, back, w);
    before(p, to, there)
}

// Adds to the matrix at `at` the pairs of which one comes by the matrix at `from`, and the other by the one at `to`, to a pair of the matrix at `by`. Gives the number of rows that are new.
pub fn widen(p: &mut [u16], from: usize, by: usize, back: bool, to: usize, at: usize) -> usize
    requires { Apart from at × Apart by at × Apart to at × (from + positions ≤ length p.old) × (by + positions ≤ length p.old) × (to + positions ≤ length p.old) × (at + positions ≤ length p.old) }
    ensures { Widening (Widened p.old at from by back to) at positions p.old p.new result }
{
    let mut r: usize = 0;
    for a in 0..Rule::MAX_POSITIONS {
        let w = row(p, from, by, back, to, a);
        r += add(p, at + a, w);
    }
    r
}
