// Sets of positions below 16, as the bits of a u16: 01, "its size is the number of ones in it".
#![tactic(auto)]

pub mod square;

ghost use Rattle.std.specs.Prelude.{◌≡◌, ℕ, ◌<◌};
ghost use Rattle.limits.specs.Limits.{positions};
ghost use Rattle.bits.specs.Sets.{bit, or, and, is, size};

pub fn has(w: u16, j: u16) -> bool
    requires { j < positions }
    ensures { result ≡ bit w j }
{
    (w >> j) % 2 == 1
}

pub fn insert(w: u16, j: u16) -> u16
    requires { j < positions }
    ensures { (i : ℕ) → bit result i ≡ or (is i j) (bit w i) }
{
    w | (1 << j)
}

pub fn union(a: u16, b: u16) -> u16
    ensures { (i : ℕ) → bit result i ≡ or (bit a i) (bit b i) }
{
    a | b
}

pub fn meet(a: u16, b: u16) -> u16
    ensures { (i : ℕ) → bit result i ≡ and (bit a i) (bit b i) }
{
    a & b
}

pub fn count(w: u16) -> u32
    ensures { result ≡ size positions w }
{
    u16::count_ones(w)
}
