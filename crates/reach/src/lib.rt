// Where a walk comes to: a work list over nodes and sets of positions, in a comparison's part of the scratch.
#![tactic(auto)]

pub mod expand;
pub mod list;

ghost use Rattle.std.specs.Prelude.{◌<◌};
ghost use Rattle.limits.specs.Limits.{positions};
ghost use Rattle.layout.specs.Part.{Space};
ghost use Rattle.reach.specs.Reached.{Reached};

use bits::insert;
use expand::expand;
use layout::Part;
use layout::words::fill;
use list::add;
use machine::Machine;

// What `i` at node `v` comes to, at every node.
pub fn reach(p: &mut [u16], n: usize, m: Machine, i: usize, v: usize)
    requires { Space n p.old × (i < positions) × (v < n) }
    ensures { Reached m n i v p.old p.new }
{
    fill(p, n, Part::SEEN, 0);
    let w = insert(0, i as u16);
    let mut len = add(p, n, v, w, 0);
    let mut h = 0;
    while h < len {
        len = expand(p, n, m, h, len);
        h += 1;
    }
}
