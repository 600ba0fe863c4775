// More operations on sets of positions.
ghost use Rattle.std.specs.Prelude.{◌≡◌, true, not, ◌↔◌, ℕ, ◌<◌};
ghost use Rattle.limits.specs.Limits.{positions};
ghost use Rattle.bits.specs.Sets.{bit, and};

// A member of a set that has any: the lowest.
pub fn first(w: u16) -> u16
    requires { 0 < w }
    ensures { (result < positions) × (bit w result ≡ true) }
{
    u16::trailing_zeros(w) as u16
}

// The members of `a` that are none of `b`.
pub fn without(a: u16, b: u16) -> u16
    ensures { (i : ℕ) → bit result i ≡ and (bit a i) (not (bit b i)) }
{
    a ^ (a & b)
}

// Whether `a` and `b` have a member in common.
pub fn touches(a: u16, b: u16) -> bool
    ensures { (result ≡ true) ↔ ((j : ℕ) × (j < positions) × (bit b j ≡ true) × (bit a j ≡ true)) }
{
    0 < a & b
}
