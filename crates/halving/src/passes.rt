// One pass: the snippets of exponent k + 1 are handed down to exponent k.
ghost use Rattle.std.specs.Prelude.{◌+◌, ◌≤◌, ◌<◌, length};
ghost use Rattle.limits.specs.Limits.{positions};
ghost use Rattle.matrices.specs.Matrices.{Apart, Drawing};
ghost use Rattle.powers.specs.Blocks.{BlockRoom};
ghost use Rattle.halving.specs.Passes.{Upper, Lower, With, Hands, Grown, Handed};

use bits::union;
use layout::Blocks;
use layout::places::block_at;
use limits::Rule;
use matrices::{before, image, is_empty};
use powers::blocks::upper;

// Within a block, between the rows that lead up and the upper node.
// The matrix at `to` gets the upper halves of the snippets at `source`: each second position is taken back along `down`.
fn add_upper(p: &mut [u16], source: usize, down: usize, to: usize)
    requires { Apart source to × Apart down to × (source + positions ≤ length p.old) × (down + positions ≤ length p.old) × (to + positions ≤ length p.old) }
    ensures { Drawing (With p.old to (Upper p.old source down)) to positions p.old p.new }
{
    for i in 0..Rule::MAX_POSITIONS {
        let w = p[source + i];
        let new = before(p, down, w);
        p[to + i] = union(p[to + i], new);
    }
}

// The matrix at `to` gets the lower halves of the snippets at `source`: each first position is taken on along `up`.
// Not one function with `add_upper`: there the snippets give the rows and the way is the matrix, here it is the other way round, so a flag would exchange all but the last line.
fn add_lower(p: &mut [u16], source: usize, up: usize, to: usize)
    requires { Apart source to × Apart up to × (source + positions ≤ length p.old) × (up + positions ≤ length p.old) × (to + positions ≤ length p.old) }
    ensures { Drawing (With p.old to (Lower p.old source up)) to positions p.old p.new }
{
    for i in 0..Rule::MAX_POSITIONS {
        let w = p[up + i];
        let new = image(p, source, w);
        p[to + i] = union(p[to + i], new);
    }
}

// The snippets with the lower node `y`, halved at the node between. Where no node lies 2^k above `y`, there are none.
fn split(p: &mut [u16], n: usize, k: usize, y: usize)
    requires { (y < n) × BlockRoom n (k + 2) p.old }
    ensures { Grown n k (Hands n k p.old y) p.old p.new }
{
    let next = k + 1;
    let h = upper(p, n, k, y);
    if n <= h {
        return;
    }
    let source = block_at(n, next, y) + Blocks::SNIPPETS;
    let low = block_at(n, k, y);
    let high = block_at(n, k, h);
    add_upper(p, source, low, high + Blocks::SNIPPETS);
    add_lower(p, source, high + Blocks::UP, low + Blocks::SNIPPETS);
}

// The same, at once where there are no snippets: that is so for most nodes.
fn hand_down(p: &mut [u16], n: usize, k: usize, y: usize)
    requires { (y < n) × BlockRoom n (k + 2) p.old }
    ensures { Grown n k (Hands n k p.old y) p.old p.new }
{
    let source = block_at(n, k + 1, y) + Blocks::SNIPPETS;
    if is_empty(p, source) {
        return;
    }
    split(p, n, k, y);
}

// All snippets of exponent k + 1.
pub fn pass(p: &mut [u16], n: usize, k: usize)
    requires { BlockRoom n (k + 2) p.old }
    ensures { Grown n k (Handed n k p.old n) p.old p.new }
{
    for y in 0..n {
        hand_down(p, n, k, y);
    }
}
