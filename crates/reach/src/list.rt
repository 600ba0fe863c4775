// The work list of a walk, forwards and backwards: its entries are never taken off, since each of them makes one more position seen somewhere, and so 16 for each node are enough.
ghost use Rattle.std.specs.Prelude.{◌≡◌, ◌*◌, ◌<◌};
ghost use Rattle.limits.specs.Limits.{positions};
ghost use Rattle.layout.specs.Part.{NODES, POSITIONS, Space};
ghost use Rattle.layout.specs.Words.{word, Wrote};
ghost use Rattle.reach.specs.Work.{node_of, Work, Added, At, entered};

use bits::union;
use layout::Part;
use matrices::sets::without;

// An entry: a node, and the positions that were new there.
#[derive(Clone, Copy)]
pub struct Entry {
    pub node: usize,
    pub set: u16,
}

// Entry `h`.
pub fn entry_at(p: &[u16], n: usize, h: usize, len: usize) -> Entry
    requires { Work n len p.now × (h < len) }
    ensures { (result.node ≡ node_of p.now n h) × (result.set ≡ word p.now n POSITIONS h) }
{
    let node = p[Part::NODES * n + h] as usize;
    let set = p[Part::POSITIONS * n + h];
    Entry { node, set }
}

// Entry `len`: node `u` and the positions that are new there. `seen` are all that are seen there now.
fn enter(p: &mut [u16], n: usize, u: usize, seen: u16, new: u16, len: usize)
    requires { Space n p.old × (u < n) × (len < positions * n) }
    ensures { Wrote (entered n u seen new len) p.old p.new }
{
    p[Part::SEEN * n + u] = seen;
    p[Part::NODES * n + len] = u as u16;
    p[Part::POSITIONS * n + len] = new;
}

// The positions of `w` come to node `u`, if that is a node. Gives the number of entries.
pub fn add(p: &mut [u16], n: usize, u: usize, w: u16, len: usize) -> usize
    requires { Work n len p.old }
    ensures { Added (At u w) n NODES len result p.old p.new }
{
    if n <= u {
        return len;
    }
    let seen = p[Part::SEEN * n + u];
    let new = without(w, seen);
    if new == 0 {
        return len;
    }
    enter(p, n, u, union(seen, w), new, len);
    len + 1
}
