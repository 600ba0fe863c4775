// One word of a column, read and written, and a whole column filled.
ghost use Rattle.std.specs.Prelude.{◌≡◌, [], ◌∷◌, ◌<◌};
ghost use Rattle.limits.specs.Limits.{word_values};
ghost use Rattle.layout.specs.Words.{cell, word, Wrote, Filled};
ghost use Rattle.layout.specs.Table.{COLUMNS, LEFT, RIGHT, PARENT, offset_of, Room};

use crate::Table;
use limits::Scratch;

// Column `c` of node `v` becomes `x`.
pub fn put(t: &mut [u16], n: usize, c: usize, v: usize, x: usize)
    requires { (c < COLUMNS) × (v < n) × Room n t.old × (x < word_values) }
    ensures { Wrote ((cell n c v, x) ∷ []) t.old t.new }
{
    t[c * n + v] = x as u16;
}

// Column `c` of node `v`.
pub fn get(t: &[u16], n: usize, c: usize, v: usize) -> usize
    requires { (c < COLUMNS) × (v < n) × Room n t.now }
    ensures { (result ≡ word t.now n c v) × (result < word_values) }
{
    t[c * n + v] as usize
}

// The offset of the lines of node `v`.
pub fn offset(t: &[u16], n: usize, v: usize) -> usize
    requires { (v < n) × Room n t.now }
    ensures { result ≡ offset_of t.now n v }
{
    get(t, n, Table::LOW, v) + Scratch::WORD_VALUES * get(t, n, Table::HIGH, v)
}

// The three links differ in a column only: each is a name for one call of `get`, so that callers name a link and no column.

// The left child of node `v`, or none.
pub fn left(t: &[u16], n: usize, v: usize) -> usize
    requires { (v < n) × Room n t.now }
    ensures { (result ≡ word t.now n LEFT v) × (result < word_values) }
{
    get(t, n, Table::LEFT, v)
}

// The right child of node `v`, or none.
pub fn right(t: &[u16], n: usize, v: usize) -> usize
    requires { (v < n) × Room n t.now }
    ensures { (result ≡ word t.now n RIGHT v) × (result < word_values) }
{
    get(t, n, Table::RIGHT, v)
}

// The parent of node `v`, or none for the root.
pub fn parent(t: &[u16], n: usize, v: usize) -> usize
    requires { (v < n) × Room n t.now }
    ensures { (result ≡ word t.now n PARENT v) × (result < word_values) }
{
    get(t, n, Table::PARENT, v)
}

// Column `c` of every node becomes `x`.
pub fn fill(t: &mut [u16], n: usize, c: usize, x: usize)
    requires { (c < COLUMNS) × Room n t.old × (x < word_values) }
    ensures { Filled n c x n t.old t.new }
{
    t[c * n..c * n + n].fill(x as u16);
}
