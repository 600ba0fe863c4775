// Where the tests of a rule hold: for each node four words of the table, with a bit for each test.
#![tactic(auto)]

pub mod notes;

ghost use Rattle.std.specs.Prelude.{◌≡◌, ◌<◌};
ghost use Rattle.limits.specs.Limits.{rule_tests};
ghost use Rattle.layout.specs.Table.{Room};
ghost use Rattle.test_bits.specs.Columns.{held};

use layout::Table;
use layout::words::get;
use limits::Scratch;

// Test `k` holds at node `v`.
pub fn holds(t: &[u16], n: usize, k: usize, v: usize) -> bool
    requires { (k < rule_tests) × (v < n) × Room n t.now }
    ensures { result ≡ held t.now n k v }
{
    let w = get(t, n, Table::TESTS + k / Scratch::WORD_BITS, v);
    bits::has(w as u16, (k % Scratch::WORD_BITS) as u16)
}
