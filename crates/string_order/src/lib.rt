// The order of two strings that are read where they stand: by unsigned bytes, a proper prefix being smaller.
#![tactic(auto)]

mod blocks;

ghost use Rattle.std.specs.Prelude.{List, ◌∷◌, ◌≡◌, ◌≢◌, ℕ, length};
ghost use Rattle.string_order.specs.Ordered.{Ordered, Begins, Agrees};

use blocks::{BLOCK, same_blocks};
use std::cmp::Ordering;

// How many of the first bytes of two slices are the same, where the first `from` are known to be.
fn agree_from(x: &[u8], y: &[u8], from: usize) -> usize
    requires { (length x.now ≡ length y.now) × Begins x.now y.now from }
    ensures { Agrees x.now y.now result }
{
    for k in from..x.len() {
        if x[k] != y[k] {
            return k;
        }
    }
    x.len()
}

// How many of the first bytes of two slices are the same. Slices of a block or less would lose by blocks.
pub fn agree(x: &[u8], y: &[u8]) -> usize
    requires { length x.now ≡ length y.now }
    ensures { Agrees x.now y.now result }
{
    if x.len() <= BLOCK {
        return agree_from(x, y, 0);
    }
    let k = same_blocks(x, y);
    agree_from(x, y, k)
}

// How two strings compare that differ in their first bytes.
pub fn by_bytes(a: u8, b: u8) -> Ordering
    ensures { (bs cs : List ℕ) → a ≢ b → Ordered (a ∷ bs) (b ∷ cs) result }
{
    a.cmp(&b)
}
