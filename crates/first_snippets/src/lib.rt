// The snippets that the first snippets of one value yield directly: added to the snippets' rows of a comparison's part, for one group of nodes of equal value after the other.
#![tactic(auto)]

mod sinking;

ghost use Rattle.std.specs.Prelude.{◌≡◌, true, false, ◌≤◌, ◌<◌};
ghost use Rattle.lists.specs.Lists.{All};
ghost use Rattle.limits.specs.Limits.{document_nodes};
ghost use Rattle.layout.specs.Table.{Room};
ghost use Rattle.buckets.specs.Buckets.{Buckets};
ghost use Rattle.first_snippets.specs.Groups.{Base, Grounds, Added, AddedOf, AddedBy, Somewhere, Alone};

use group_ends::rising::rise;
use group_marks::marks::mark_group;
use layout::words::get;
use layout::{Groups, Table};
use machine::Machine;
use sinking::sink;

// What the first snippets of the value of rank `r` yield. The members of `first` are the positions of the first path.
pub fn add_group(p: &mut [u16], n: usize, b: usize, m: Machine, first: u16, r: usize)
    requires { Grounds m n b r p.old }
    ensures { Added m n b first r p.old p.new }
{
    mark_group(p, n, r);
    rise(p, n, b, m, r);
    sink(p, n, b, m, r, first);
}

// Whether two nodes have the rank `r`. The skeleton of one node has no edge, so it yields nothing.
fn is_shared(p: &[u16], n: usize, r: usize) -> bool
    requires { Buckets n p.now × Room n p.now × (n ≤ document_nodes) × (r < n) }
    ensures { (result ≡ true → Somewhere n r p.now) × (result ≡ false → Alone n r p.now) }
{
    let w = get(p, n, Groups::FIRST, r);
    w < n && get(p, n, Groups::NEXT, w) < n
}

// The same of a rank that no node or one node may have.
fn add_rank(p: &mut [u16], n: usize, b: usize, m: Machine, first: u16, r: usize)
    requires { Base m n b p.old × (r < n) }
    ensures { AddedOf (λ z. z ≡ r) m n b first p.old p.new }
{
    if is_shared(p, n, r) {
        add_group(p, n, b, m, first, r);
    }
}

// What the first snippets of the values of the nodes in the list yield, in any order. What two of them yield is in the rows once.
pub fn add_values(p: &mut [u16], n: usize, b: usize, m: Machine, first: u16, values: &[u16])
    requires { Base m n b p.old × All (λ w. w < n) values.now }
    ensures { AddedBy values.now m n b first p.old p.new }
{
    for &w in values {
        let r = get(p, n, Table::RANK, w as usize);
        add_rank(p, n, b, m, first, r);
    }
}
