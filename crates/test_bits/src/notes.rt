// One bit of one node, written.
ghost use Rattle.std.specs.Prelude.{◌≡◌, ℕ, ◌<◌};
ghost use Rattle.limits.specs.Limits.{rule_tests, word_bits};
ghost use Rattle.bits.specs.Sets.{bit, is};
ghost use Rattle.document_spec.specs.Binary.{pick};
ghost use Rattle.layout.specs.Table.{Room};
ghost use Rattle.test_bits.specs.Columns.{Noted};

use layout::Table;
use layout::words::{get, put};
use limits::Scratch;

// The word with bit `j` as told.
fn with_bit(w: u16, j: u16, b: bool) -> u16
    requires { j < word_bits }
    ensures { (i : ℕ) → bit result i ≡ pick (is i j) b (bit w i) }
{
    let filled = bits::insert(w, j);
    if b { filled } else { filled ^ (1 << j) }
}

// Whether test `k` holds at node `v`, as told.
pub fn note(t: &mut [u16], n: usize, k: usize, v: usize, b: bool)
    requires { (k < rule_tests) × (v < n) × Room n t.old }
    ensures { Noted n k v b t.old t.new }
{
    let c = Table::TESTS + k / Scratch::WORD_BITS;
    let w = get(t, n, c, v);
    let x = with_bit(w as u16, (k % Scratch::WORD_BITS) as u16, b);
    put(t, n, c, v, x as usize);
}
