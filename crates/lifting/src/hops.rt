// The first hop up along a stretch, by its largest power.
ghost use Rattle.std.specs.Prelude.{◌<◌};
ghost use Rattle.lifting.specs.Ladder.{Stretch, Hops};

use exponents::{exponent, two_to};
use powers::blocks::upper;

// The node over, 2^exponent above, and how many edges are left from there.
#[derive(Clone, Copy)]
pub struct Hop {
    pub exponent: usize,
    pub over: usize,
    pub rest: usize,
}

// The hop from node `y`, below the top of a stretch of `len` edges.
pub fn first_hop(p: &[u16], n: usize, b: usize, y: usize, len: usize) -> Hop
    requires { Stretch n b y len p.now × (0 < len) }
    ensures { Hops n y len result.exponent result.over result.rest p.now }
{
    let k = exponent(len) as usize;
    let over = upper(p, n, k, y);
    Hop {
        exponent: k,
        over,
        rest: len - two_to(k),
    }
}
