// Ranks along the sorted nodes: one more at each node whose value is greater than that of the node before it.
ghost use Rattle.std.specs.Prelude.{List, ◌≡◌, ◌≤◌, ◌<◌};
ghost use Rattle.bits.specs.Sets.{one};
ghost use Rattle.document_spec.specs.Library as Library;
ghost use Rattle.document_spec.specs.Verdict.{Accepts};
ghost use Rattle.sorting.specs.Sorting.{Entries};
ghost use Rattle.value_order.specs.Less.{is_smaller};
ghost use Rattle.value_order.specs.Twins.{Prepared};
ghost use Rattle.ranks.specs.Sorting.{Numbered};

use layout::words::{get, put};
use layout::{Ranking, Table};
use value_order::comparison::compare_with;
use values::value_of;

// 1 if node `u` has a smaller value than node `v`; nodes with one twin are not compared.
fn rise(s: &[u8], t: &[u16], n: usize, u: usize, v: usize) -> usize
    requires { Prepared s.now n t.now × (u < n) × (v < n) }
    ensures { (result ≤ 1) × ((ns : List Library.Node) → Accepts s.now ns → result ≡ one (is_smaller ns v u)) }
{
    if get(t, n, Ranking::TWIN, u) == get(t, n, Ranking::TWIN, v) {
        return 0;
    }
    let x = value_of(t, n, v);
    usize::from(compare_with(s, t, n, x, u).is_gt())
}

// The first node is compared with itself, and gets 0.
pub fn number(s: &[u8], t: &mut [u16], n: usize)
    requires { Prepared s.now n t.old × Entries n n t.old }
    ensures { Numbered s.now n t.old t.new }
{
    let mut u = get(t, n, Ranking::ORDER, 0);
    let mut r = 0;
    for i in 0..n {
        let v = get(t, n, Ranking::ORDER, i);
        r += rise(s, t, n, u, v);
        put(t, n, Table::RANK, v, r);
        u = v;
    }
}
