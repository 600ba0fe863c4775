// Which positions come right before those of a set.
ghost use Rattle.std.specs.Prelude.{true, ◌⊎◌, ◌↔◌, ◌≡◌, ℕ, ◌<◌};
ghost use Rattle.limits.specs.Limits.{positions};
ghost use Rattle.bits.specs.Sets.{bit};
ghost use Rattle.matrices.specs.Matrices.{Exactly};
ghost use Rattle.retracing.specs.Backward.{Common, Precedes};

use bits::{insert, meet};
use limits::Rule;

// The set with `i` too, if a member of `w` is in its row.
fn with_row(r: u16, row: u16, i: usize, w: u16) -> u16
    requires { i < positions }
    ensures { (k : ℕ) → (bit result k ≡ true) ↔ ((bit r k ≡ true) ⊎ ((k ≡ i) × Common row w)) }
{
    if meet(row, w) == 0 {
        return r;
    }
    insert(r, i as u16)
}

// The positions that a member of `w` follows.
pub fn predecessors(rows: [u16; Rule::MAX_POSITIONS], w: u16) -> u16
    ensures { Exactly result (Precedes rows w) }
{
    let mut r = 0;
    for (i, row) in rows.iter().enumerate() {
        r = with_row(r, *row, i, w);
    }
    r
}
