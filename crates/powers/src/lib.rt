// The powers of two along the tree: the node 2^k above a node, for each exponent k, and which positions come to which between the two.
#![tactic(auto)]

pub mod blocks;
mod passes;

ghost use Rattle.std.specs.Prelude.{◌<◌};
ghost use Rattle.xpath.specs.Syntax.{XPath};
ghost use Rattle.xpath.specs.Tree.{Tree};
ghost use Rattle.powers.specs.Blocks.{BlockRoom};
ghost use Rattle.powers.specs.Powers.{Ready, Powered};

use machine::Machine;
use passes::pass;

// The powers of all nodes, for the exponents below `b`.
pub fn find_powers(p: &mut [u16], n: usize, b: usize, m: Machine)
    requires { ((P R : XPath) × (t : Tree) × Ready P R t m n p.old) × (0 < n) × BlockRoom n b p.old }
    ensures { (P R : XPath) (t : Tree) → Ready P R t m n p.old → Powered P R t n b p.old p.new }
{
    for k in 0..b {
        pass(p, n, m, k);
    }
}
