// One pass over the nodes for each kind of test that is made of other tests.
#![tactic(auto)]

ghost use Rattle.std.specs.Prelude.{◌≡◌, true, ◌⊎◌, ◌*◌, ◌≤◌, ◌<◌, ◌+◌, length};
ghost use Rattle.limits.specs.Limits.{rule_tests};
ghost use Rattle.layout.specs.Table.{COLUMNS, Room};
ghost use Rattle.layout.specs.Words.{word};
ghost use Rattle.test_bits.specs.Columns.{held, Settled};

use layout::Table;
use test_bits::holds;
use test_bits::notes::note;

// Test `k` where test `a` does not hold.
pub fn deny(t: &mut [u16], n: usize, k: usize, a: usize)
    requires { (k < rule_tests) × (a < rule_tests) × Room n t.old }
    ensures { Settled n k (λ v. ¬ (held t.old n a v ≡ true)) t.old t.new }
{
    for v in 0..n {
        let x = holds(t, n, a, v);
        note(t, n, k, v, !x);
    }
}

// Test `k` where `a` and `b` hold.
pub fn both(t: &mut [u16], n: usize, k: usize, a: usize, b: usize)
    requires { (k < rule_tests) × (a < rule_tests) × (b < rule_tests) × Room n t.old }
    ensures { Settled n k (λ v. (held t.old n a v ≡ true) × (held t.old n b v ≡ true)) t.old t.new }
{
    for v in 0..n {
        let x = holds(t, n, a, v);
        let y = holds(t, n, b, v);
        note(t, n, k, v, x && y);
    }
}

// Test `k` where `a` or `b` holds.
pub fn either(t: &mut [u16], n: usize, k: usize, a: usize, b: usize)
    requires { (k < rule_tests) × (a < rule_tests) × (b < rule_tests) × Room n t.old }
    ensures { Settled n k (λ v. (held t.old n a v ≡ true) ⊎ (held t.old n b v ≡ true)) t.old t.new }
{
    for v in 0..n {
        let x = holds(t, n, a, v);
        let y = holds(t, n, b, v);
        note(t, n, k, v, x || y);
    }
}

// Test `k` where a comparison has left 1 in the first column of its part, which begins behind the table.
pub fn take(t: &mut [u16], n: usize, k: usize)
    requires { (k < rule_tests) × ((COLUMNS + 1) * n ≤ length t.old) }
    ensures { Settled n k (λ v. word t.old n COLUMNS v ≡ 1) t.old t.new }
{
    for v in 0..n {
        let x = t[Table::COLUMNS * n + v];
        note(t, n, k, v, x == 1);
    }
}
