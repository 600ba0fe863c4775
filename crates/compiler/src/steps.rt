// The steps of one kind, and the positions of the first path, as sets.
ghost use Rattle.std.specs.Prelude.{◌≡◌, true, ◌↔◌, ℕ, ◌+◌, ◌≤◌, ◌<◌};
ghost use Rattle.limits.specs.Limits.{positions};
ghost use Rattle.bits.specs.Sets.{bit};
ghost use Rattle.compiler.specs.Gathered.{Gathered, Inside, Begins};

use bits::insert;
use limits::Rule;

// The steps 1 to n that begin with a byte: it stands at their places.
pub fn steps_with(s: &[u8], places: [usize; Rule::MAX_POSITIONS], n: usize, byte: u8) -> u16
    requires { Inside s.now places n }
    ensures { Gathered (Begins s.now places byte) (n + 1) result }
{
    let mut w = 0;
    for i in 1..=n {
        if s[places[i]] == byte {
            w = insert(w, i as u16);
        }
    }
    w
}

// The positions 0 to n.
pub fn up_to(n: usize) -> u16
    requires { n < positions }
    ensures { (j : ℕ) → (bit result j ≡ true) ↔ (j ≤ n) }
{
    let mut w = 0;
    for j in 0..=n {
        w = insert(w, j as u16);
    }
    w
}
