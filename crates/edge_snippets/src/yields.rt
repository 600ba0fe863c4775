// The rows that an edge of the skeleton gains: by its largest power from its upper node down, and by the same power from its lower node up.
ghost use Rattle.std.specs.Prelude.{◌<◌};
ghost use Rattle.exponents.specs.Exponent.{Exponent};
ghost use Rattle.lifting.specs.Ladder.{Stretch};
ghost use Rattle.edge_snippets.specs.Edges.{Gained, UpperPart, LowerPart, BothParts};

use crate::rows::add_rows;
use exponents::{exponent, two_to};
use layout::Blocks;
use layout::places::block_at;
use lifting::{above, lift, lower};

// The sets of positions at the two ends of an edge. The members of `first` are the positions of the first path, those of `inside` end at or below the lower node, and those of `outside` at the upper node end elsewhere.
#[derive(Clone, Copy)]
struct Ends {
    first: u16,
    inside: u16,
    outside: u16,
}

// The upper part of the edge of length `len` above node `v`, where `k` is the exponent of the length.
fn add_upper(p: &mut [u16], n: usize, b: usize, v: usize, len: usize, k: usize, ends: Ends)
    requires { Stretch n b v len p.old × Exponent len k }
    ensures { Gained (UpperPart v len) n b v len ends.first ends.inside ends.outside p.old p.new }
{
    let rest = len - two_to(k);
    let u = above(p, n, b, v, rest);
    let set = lift(p, n, b, v, rest, ends.inside);
    let at = block_at(n, k, u);
    add_rows(p, at + Blocks::SNIPPETS, ends.outside, set, ends.first);
}

// The lower part. It is carried along the other stretch, the other way, and written at the other node: no parameter would tell it from the upper part.
fn add_lower(p: &mut [u16], n: usize, b: usize, v: usize, len: usize, k: usize, ends: Ends)
    requires { Stretch n b v len p.old × Exponent len k }
    ensures { Gained (LowerPart v len) n b v len ends.first ends.inside ends.outside p.old p.new }
{
    let power = two_to(k);
    let w = above(p, n, b, v, power);
    let set = lower(p, n, b, w, len - power, ends.outside);
    let at = block_at(n, k, v);
    add_rows(p, at + Blocks::SNIPPETS, set, ends.inside, ends.first);
}

// Both parts. The positions of `inside` end at or below `v`, those of `outside` at the upper node end elsewhere.
pub fn add_edge(
    p: &mut [u16],
    n: usize,
    b: usize,
    v: usize,
    len: usize,
    first: u16,
    inside: u16,
    outside: u16,
)
    requires { Stretch n b v len p.old × (0 < len) }
    ensures { Gained (BothParts v len) n b v len first inside outside p.old p.new }
{
    let k = exponent(len) as usize;
    let ends = Ends {
        first,
        inside,
        outside,
    };
    add_upper(p, n, b, v, len, k, ends);
    add_lower(p, n, b, v, len, k, ends);
}
