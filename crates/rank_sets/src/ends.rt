// Where a walk ends: the nodes that it comes to at one of the last positions.
ghost use Rattle.std.specs.Prelude.{true, ◌↔◌, ◌≡◌, ◌<◌};
ghost use Rattle.layout.specs.Table.{Room};
ghost use Rattle.rank_sets.specs.Ends.{Ended};

use layout::Part;
use layout::words::get;

// Whether the walk ends at node `w`.
pub fn ends_at(p: &[u16], n: usize, last: u16, w: usize) -> bool
    requires { (w < n) × Room n p.now }
    ensures { (result ≡ true) ↔ Ended n last p.now w }
{
    let seen = get(p, n, Part::SEEN, w);
    bits::meet(seen as u16, last) != 0
}
