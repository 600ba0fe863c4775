// The answers: whether the two starts are a pair of the node.
ghost use Rattle.std.specs.Prelude.{◌≡◌, [], ◌∷◌, ◌≤◌, ◌<◌, get_or};
ghost use Rattle.limits.specs.Limits.{positions};
ghost use Rattle.bits.specs.Sets.{bit, one};
ghost use Rattle.layout.specs.Part.{ANSWER, pair_at};
ghost use Rattle.layout.specs.Words.{cell, Wrote};
ghost use Rattle.pairs.specs.Growing.{Ready};
ghost use Rattle.settling.specs.Settled.{Answering};

use bits::has;
use layout::Part;
use layout::places::pair_at;
use layout::words::put;

// 1 if `w` has `b`, and else 0.
fn one_if_has(w: u16, b: usize) -> usize
    requires { b < positions }
    ensures { (result ≡ one (bit w b)) × (result ≤ 1) }
{
    usize::from(has(w, b as u16))
}

// The answer of node `v`.
fn answer_at(p: &mut [u16], n: usize, second: usize, v: usize)
    requires { Ready n p.old × (second < positions) × (v < n) }
    ensures { Wrote ((cell n ANSWER v, one (bit (get_or p.old (pair_at n v) 0) second)) ∷ []) p.old p.new }
{
    let w = p[pair_at(n, v)];
    put(p, n, Part::ANSWER, v, one_if_has(w, second));
}

// The answer of each node.
pub fn answer(p: &mut [u16], n: usize, second: usize)
    requires { Ready n p.old × (second < positions) }
    ensures { Answering second n n p.old p.new }
{
    for v in 0..n {
        answer_at(p, n, second, v);
    }
}
