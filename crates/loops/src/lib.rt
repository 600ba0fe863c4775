// The loops of a comparison: for each node, which position comes to which there. Each node's matrix starts with the steps that stay and then grows by the detours over its neighbours, until no round changes any.
#![tactic(auto)]

mod rounds;
mod start;

ghost use Rattle.std.specs.Prelude.{◌*◌, ◌≤◌, ◌<◌, length};
ghost use Rattle.xpath.specs.Syntax.{XPath};
ghost use Rattle.xpath.specs.Tree.{Tree};
ghost use Rattle.layout.specs.Part.{PAIRS};
ghost use Rattle.loops.specs.Loops.{Stage, Looped};

use machine::Machine;
use rounds::round;
use start::start;

// The matrix of each node, behind the 16 columns of the part.
pub fn find_loops(p: &mut [u16], n: usize, m: Machine)
    requires { ((P R : XPath) × (t : Tree) × Stage P R t m n p.old) × (PAIRS * n ≤ length p.old) × (0 < n) }
    ensures { (P R : XPath) (t : Tree) → Stage P R t m n p.old → Looped P R t n p.old p.new }
{
    start(p, n, m);
    // The start is a change, too.
    let mut changed: usize = 1;
    while 0 < changed {
        changed = round(p, n, m);
    }
}
