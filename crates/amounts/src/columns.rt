// The key of a node's amount in its columns: three words.
ghost use Rattle.std.specs.Prelude.{◌≡◌, ◌≤◌, ◌<◌};
ghost use Rattle.layout.specs.Table.{Room};
ghost use Rattle.layout.specs.Words.{Wrote};
ghost use Rattle.numerals.specs.Keys.{no_key};
ghost use Rattle.amounts.specs.Keys.{key_in, keyed};

use layout::Ranking;
use layout::words::{get, put};
use limits::Scratch;

// The key of node `v`.
pub fn get_key(t: &[u16], n: usize, v: usize) -> usize
    requires { (v < n) × Room n t.now }
    ensures { result ≡ key_in t.now n v }
{
    let high = get(t, n, Ranking::KEY_HIGH, v);
    let middle = get(t, n, Ranking::KEY_MIDDLE, v);
    let low = get(t, n, Ranking::KEY_LOW, v);
    low + Scratch::WORD_VALUES * (middle + Scratch::WORD_VALUES * high)
}

// The key of node `v` becomes `k`.
pub fn put_key(t: &mut [u16], n: usize, v: usize, k: usize)
    requires { (v < n) × Room n t.old × (k ≤ no_key) }
    ensures { Wrote (keyed n v k) t.old t.new }
{
    let rest = k / Scratch::WORD_VALUES;
    put(t, n, Ranking::KEY_LOW, v, k % Scratch::WORD_VALUES);
    put(t, n, Ranking::KEY_MIDDLE, v, rest % Scratch::WORD_VALUES);
    put(t, n, Ranking::KEY_HIGH, v, rest / Scratch::WORD_VALUES);
}
