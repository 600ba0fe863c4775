// Relations on the 16 positions. Each is a matrix, 16 words of a slice from an offset on: row i is the set of what i is related to.
#![tactic(auto)]

pub mod followers;
pub mod rows;
pub mod sets;

ghost use Rattle.std.specs.Prelude.{◌≡◌, true, ◌↔◌, ℕ, ◌+◌, ◌≤◌, ◌<◌, length};
ghost use Rattle.limits.specs.Limits.{positions};
ghost use Rattle.matrices.specs.Matrices.{Exactly, Related, Image, Before, Redrawn, Apart, pairs};

use bits::{count, insert, union};
use limits::Rule;
use sets::{first, touches, without};

// What the members of `w` are related to. Each turn takes one member out, so that few members take few turns.
pub fn image(p: &[u16], at: usize, w: u16) -> u16
    requires { at + positions ≤ length p.now }
    ensures { Exactly result (Image p.now at w) }
{
    let mut r = 0;
    let mut rest = w;
    while 0 < rest {
        let i = first(rest);
        r = union(r, p[at + i as usize]);
        rest = without(rest, insert(0, i));
    }
    r
}

// What is related to a member of `w`. Nothing is related to a member of the empty set, which is a frequent one.
pub fn before(p: &[u16], at: usize, w: u16) -> u16
    requires { at + positions ≤ length p.now }
    ensures { Exactly result (Before p.now at w) }
{
    if w == 0 {
        return 0;
    }
    let mut r = 0;
    for i in 0..Rule::MAX_POSITIONS {
        if touches(p[at + i], w) {
            r = insert(r, i as u16);
        }
    }
    r
}

// The matrix at `c` becomes the one at `a` followed by the one at `b`.
pub fn compose(p: &mut [u16], a: usize, b: usize, c: usize)
    requires { Apart a c × Apart b c × (a + positions ≤ length p.old) × (b + positions ≤ length p.old) × (c + positions ≤ length p.old) }
    ensures { Redrawn c p.old p.new × ((i j : ℕ) → i < positions → j < positions → Related p.new c i j ↔ ((k : ℕ) × (k < positions) × Related p.old a i k × Related p.old b k j)) }
{
    for i in 0..Rule::MAX_POSITIONS {
        let w = p[a + i];
        p[c + i] = image(p, b, w);
    }
}

// Whether no two positions are related. No row ends the loop, so that the machine reads many rows at once.
pub fn is_empty(p: &[u16], at: usize) -> bool
    requires { at + positions ≤ length p.now }
    ensures { result ≡ true → (i j : ℕ) → i < positions → ¬ Related p.now at i j }
{
    let mut all = 0;
    for row in &p[at..at + Rule::MAX_POSITIONS] {
        all = union(all, *row);
    }
    all == 0
}

// The number of pairs. The rows are counted one by one only where there are any.
pub fn size(p: &[u16], at: usize) -> usize
    requires { at + positions ≤ length p.now }
    ensures { result ≡ pairs p.now at positions }
{
    if is_empty(p, at) {
        return 0;
    }
    let mut r: usize = 0;
    for i in 0..Rule::MAX_POSITIONS {
        r += count(p[at + i]) as usize;
    }
    r
}
