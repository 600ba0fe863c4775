// Ranks along the sorted nodes: one more at each node whose key is greater than that of the node before it. What is no numeral gets none.
ghost use Rattle.std.specs.Prelude.{◌≡◌, ◌≤◌, ◌<◌, ltb};
ghost use Rattle.bits.specs.Sets.{one};
ghost use Rattle.limits.specs.Limits.{word_values};
ghost use Rattle.layout.specs.Table.{Room};
ghost use Rattle.layout.specs.Words.{NONE};
ghost use Rattle.sorting.specs.Sorting.{Entries};
ghost use Rattle.amounts.specs.Keys.{key_in};
ghost use Rattle.amounts.specs.Steps.{Shown, Numbered, Struck};

use crate::columns::get_key;
use layout::words::{get, put};
use layout::{Ranking, Table};
use numerals::NO_KEY;

// 1 if node `u` has a smaller key than node `v`.
fn rise(t: &[u16], n: usize, u: usize, v: usize) -> usize
    requires { Room n t.now × (u < n) × (v < n) }
    ensures { (result ≤ 1) × (result ≡ one (ltb (key_in t.now n u) (key_in t.now n v))) }
{
    usize::from(get_key(t, n, u) < get_key(t, n, v))
}

// The first node is compared with itself, and gets 0.
pub fn number(t: &mut [u16], n: usize)
    requires { Room n t.old × (0 < n) × (n ≤ NONE) × Entries n n t.old }
    ensures { Numbered n t.old t.new }
{
    let mut u = get(t, n, Ranking::ORDER, 0);
    let mut r = 0;
    for i in 0..n {
        let v = get(t, n, Ranking::ORDER, i);
        r += rise(t, n, u, v);
        put(t, n, Table::AMOUNT, v, r);
        u = v;
    }
}

// The number of node `v`, or none if its value is no numeral.
fn shown(t: &[u16], n: usize, v: usize) -> usize
    requires { Room n t.now × (v < n) }
    ensures { Shown n v t.now result × (result < word_values) }
{
    if get_key(t, n, v) == NO_KEY {
        return Table::NONE;
    }
    get(t, n, Table::AMOUNT, v)
}

// The numbers of nodes whose values are no numerals are struck out.
pub fn strike_out(t: &mut [u16], n: usize)
    requires { Room n t.old }
    ensures { Struck n n t.old t.new }
{
    for v in 0..n {
        let r = shown(t, n, v);
        put(t, n, Table::AMOUNT, v, r);
    }
}
