// All nodes that have a rank, by rank. What is seen first from a node of some rank walks to no node of a rank before: so by rising rank the least is found for each start at each node, and by falling rank the greatest.
ghost use Rattle.std.specs.Prelude.{◌<◌};
ghost use Rattle.limits.specs.Limits.{positions, word_values};
ghost use Rattle.layout.specs.Part.{Space};
ghost use Rattle.layout.specs.Sweeps.{LEAST, ABOVE};
ghost use Rattle.layout.specs.Words.{NONE};
ghost use Rattle.retracing.specs.Backward.{LinkedBothWays};
ghost use Rattle.buckets.specs.Buckets.{Buckets};
ghost use Rattle.retracing.specs.Notes.{column_of};
ghost use Rattle.backward.specs.Sweeps.{Blank, Blanked, Risen, Fallen, Ranges};

use layout::words::fill;
use layout::{Part, Table};
use machine::Machine;
use retracing::bounds::Bound;
use retracing::seeds::seed_rank;

// Nothing is seen, and `x` stands in the columns of the bound, one for each path.
fn blank(p: &mut [u16], n: usize, bound: Bound, x: usize)
    requires { Space n p.old × (x < word_values) }
    ensures { Blanked n (column_of bound) x p.old p.new }
{
    let c = bound.column();
    fill(p, n, Part::SEEN, 0);
    fill(p, n, c, x);
    fill(p, n, c + 1, x);
}

// The ranks from the least on.
fn rise(p: &mut [u16], n: usize, m: Machine)
    requires { Blank n LEAST NONE p.old × LinkedBothWays n p.old × Buckets n p.old × (m.second < positions) }
    ensures { Risen m n p.old p.new }
{
    let mut len = 0;
    for r in 0..n {
        len = seed_rank(p, n, m, r, len, Bound::Least, r);
    }
}

// The ranks from the greatest on. What is noted is one more than a rank.
// Not one function with `rise`: order, bound, word and contract are all others.
fn fall(p: &mut [u16], n: usize, m: Machine)
    requires { Blank n ABOVE 0 p.old × LinkedBothWays n p.old × Buckets n p.old × (m.second < positions) }
    ensures { Fallen m n p.old p.new }
{
    let mut len = 0;
    for r in (0..n).rev() {
        len = seed_rank(p, n, m, r, len, Bound::Above, r + 1);
    }
}

// The ranges of the ranks that nodes have where the two paths end.
pub fn sweep(p: &mut [u16], n: usize, m: Machine)
    requires { Space n p.old × LinkedBothWays n p.old × Buckets n p.old × (m.second < positions) }
    ensures { Ranges m n p.old p.new }
{
    blank(p, n, Bound::Least, Table::NONE);
    rise(p, n, m);
    blank(p, n, Bound::Above, 0);
    fall(p, n, m);
}
