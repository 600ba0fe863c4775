// Which positions come next after those of a set.
ghost use Rattle.std.specs.Prelude.{◌≡◌, true, ℕ, ◌<◌, get_or};
ghost use Rattle.limits.specs.Limits.{positions};
ghost use Rattle.bits.specs.Sets.{bit};
ghost use Rattle.matrices.specs.Matrices.{Exactly};

use crate::image;
use limits::Rule;

// The positions that follow a member of `w`.
pub fn followers(rows: [u16; Rule::MAX_POSITIONS], w: u16) -> u16
    ensures { Exactly result (λ j. (i : ℕ) × (i < positions) × (bit w i ≡ true) × (bit (get_or rows i 0) j ≡ true)) }
{
    image(&rows, 0, w)
}
