// Behind a walk: what it has seen and found is cleared, at the nodes of its entries and nowhere else, so that a walk that stops early costs little.
ghost use Rattle.std.specs.Prelude.{◌≡◌, ◌*◌, ◌<◌};
ghost use Rattle.limits.specs.Limits.{positions};
ghost use Rattle.layout.specs.Part.{Space};
ghost use Rattle.reach.specs.Work.{node_of};
ghost use Rattle.counting.specs.Counting.{Walked, Forgot};

use layout::Part;
use layout::words::put;

// The node of entry `h`.
fn node_at(p: &[u16], n: usize, h: usize) -> usize
    requires { Space n p.now × (h < positions * n) }
    ensures { result ≡ node_of p.now n h }
{
    p[Part::NODES * n + h] as usize
}

// Nothing is seen any more, and no node is found.
pub fn forget(p: &mut [u16], n: usize, len: usize)
    requires { Walked n len p.old }
    ensures { Forgot n p.old p.new }
{
    for h in 0..len {
        let u = node_at(p, n, h);
        put(p, n, Part::SEEN, u, 0);
        put(p, n, Part::FOUND, u, 0);
    }
}
