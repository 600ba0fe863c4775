// Whether a walk ends at a hit.
ghost use Rattle.std.specs.Prelude.{true, ◌↔◌, ◌≡◌, ℕ, ◌<◌};
ghost use Rattle.layout.specs.Part.{HIT};
ghost use Rattle.layout.specs.Table.{Room};
ghost use Rattle.layout.specs.Words.{word};
ghost use Rattle.rank_sets.specs.Ends.{Ended};

use layout::Part;
use layout::words::get;
use rank_sets::ends::ends_at;

// Whether the walk ends at node `w` and `w` is a hit.
fn hit_at(p: &[u16], n: usize, last: u16, w: usize) -> bool
    requires { (w < n) × Room n p.now }
    ensures { (result ≡ true) ↔ (Ended n last p.now w × (word p.now n HIT w ≡ 1)) }
{
    ends_at(p, n, last, w) && get(p, n, Part::HIT, w) == 1
}

// Whether the walk ends at a hit.
pub fn any_hit(p: &[u16], n: usize, last: u16) -> bool
    requires { Room n p.now }
    ensures { (result ≡ true) ↔ ((w : ℕ) × (w < n) × Ended n last p.now w × (word p.now n HIT w ≡ 1)) }
{
    for w in 0..n {
        if hit_at(p, n, last, w) {
            return true;
        }
    }
    false
}
