// The sizes of the groups, by rank.
ghost use Rattle.std.specs.Prelude.{◌≤◌};
ghost use Rattle.limits.specs.Limits.{document_nodes};
ghost use Rattle.layout.specs.Table.{Room, SmallRanks};
ghost use Rattle.group_order.specs.Steps.{Sized};

use layout::words::{fill, get, put};
use layout::{Sizes, Table};

// How many nodes have each rank.
pub fn measure(p: &mut [u16], n: usize)
    requires { SmallRanks n p.old × Room n p.old × (n ≤ document_nodes) }
    ensures { Sized n n p.old p.new }
{
    fill(p, n, Sizes::SIZE, 0);
    for v in 0..n {
        let r = get(p, n, Table::RANK, v);
        let size = get(p, n, Sizes::SIZE, r);
        put(p, n, Sizes::SIZE, r, size + 1);
    }
}
