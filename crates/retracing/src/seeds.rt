// Backwards from the nodes of a rank, with notes of what is new.
ghost use Rattle.std.specs.Prelude.{◌≡◌, ◌<◌};
ghost use Rattle.limits.specs.Limits.{positions, word_values};
ghost use Rattle.layout.specs.Table.{RANK};
ghost use Rattle.layout.specs.Words.{word};
ghost use Rattle.reach.specs.Work.{Work};
ghost use Rattle.retracing.specs.Backward.{LinkedBothWays, Closed};
ghost use Rattle.buckets.specs.Buckets.{Buckets};
ghost use Rattle.retracing.specs.Notes.{column_of, Seeded};

use crate::bounds::Bound;
use crate::notes::note_entries;
use crate::spread::spread;
use layout::Groups;
use layout::words::get;
use machine::Machine;

// What ends at node `w`.
fn seed(p: &mut [u16], n: usize, m: Machine, w: usize, len: usize, bound: Bound, x: usize) -> usize
    requires { Work n len p.old × LinkedBothWays n p.old × Closed m n p.old × (w < n) × (m.second < positions) × (x < word_values) }
    ensures { Seeded m n (λ u. u ≡ w) (column_of bound) x len result p.old p.new }
{
    let end = spread(p, n, m, w, m.last, len);
    note_entries(p, n, m.second, len, end, bound, x);
    end
}

// What ends at a node of rank `r`.
pub fn seed_rank(
    p: &mut [u16],
    n: usize,
    m: Machine,
    r: usize,
    len: usize,
    bound: Bound,
    x: usize,
) -> usize
    requires { Work n len p.old × LinkedBothWays n p.old × Closed m n p.old × Buckets n p.old × (r < n) × (m.second < positions) × (x < word_values) }
    ensures { Seeded m n (λ u. word p.old n RANK u ≡ r) (column_of bound) x len result p.old p.new }
{
    let mut end = len;
    let mut w = get(p, n, Groups::FIRST, r);
    while w < n {
        end = seed(p, n, m, w, end, bound, x);
        w = get(p, n, Groups::NEXT, w);
    }
    end
}
