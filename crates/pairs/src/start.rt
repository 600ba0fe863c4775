// The pairs at the start: both end at the node itself.
ghost use Rattle.std.specs.Prelude.{◌≡◌, true, ◌↔◌, ℕ, ◌+◌, ◌≤◌, ◌<◌, length};
ghost use Rattle.limits.specs.Limits.{positions};
ghost use Rattle.bits.specs.Sets.{bit};
ghost use Rattle.matrices.specs.Matrices.{Drawing};
ghost use Rattle.layout.specs.Part.{pair_at};
ghost use Rattle.pairs.specs.Derived.{EndsAt};
ghost use Rattle.pairs.specs.Growing.{Ready, Square, Started};

use bits::has;
use layout::places::{loop_at, pair_at};
use limits::Rule;
use matrices::before;

// The set `w` if it has `a`, and else the empty set.
fn if_has(w: u16, a: usize) -> u16
    requires { a < positions }
    ensures { (b : ℕ) → (bit result b ≡ true) ↔ Square w a b }
{
    if has(w, a as u16) {
        return w;
    }
    0
}

// The matrix at `at` becomes the pairs of two members of `w`.
fn square(p: &mut [u16], at: usize, w: u16)
    requires { at + positions ≤ length p.old }
    ensures { Drawing (Square w) at positions p.old p.new }
{
    for a in 0..Rule::MAX_POSITIONS {
        p[at + a] = if_has(w, a);
    }
}

// The pairs of node `v`.
fn begin(p: &mut [u16], n: usize, last: u16, v: usize)
    requires { Ready n p.old × (v < n) }
    ensures { Drawing (EndsAt n p.old last v) (pair_at n v) positions p.old p.new }
{
    let w = before(p, loop_at(n, v), last);
    square(p, pair_at(n, v), w);
}

// The pairs of each node.
pub fn start(p: &mut [u16], n: usize, last: u16)
    requires { Ready n p.old }
    ensures { Started last n n p.old p.new }
{
    for v in 0..n {
        begin(p, n, last, v);
    }
}
