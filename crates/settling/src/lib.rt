// The pairs of positions, one of each path of a comparison, that are settled from each node. They start with those that end at the node or meet a snippet from an end of its edge, and spread from node to node until no round changes any.
#![tactic(auto)]

mod answers;

ghost use Rattle.std.specs.Prelude.{◌*◌, ◌≤◌, ◌+◌, length};
ghost use Rattle.xpath.specs.Syntax.{XPath};
ghost use Rattle.xpath.specs.Tree.{Tree};
ghost use Rattle.loops.specs.Loops.{Stage};
ghost use Rattle.limits.specs.Limits.{words_per_digit};
ghost use Rattle.layout.specs.Blocks.{BLOCKS};
ghost use Rattle.settling.specs.Settled.{Settled};

use answers::answer;
use machine::Machine;
use pair_rounds::spread;
use pairs::seeds::seed;
use pairs::start::start;

// The answer of each node: whether the snippets of power 0 settle the comparison there.
pub fn settle(p: &mut [u16], n: usize, m: Machine)
    requires { ((P R : XPath) × (t : Tree) × Stage P R t m n p.old) × ((BLOCKS + words_per_digit) * n ≤ length p.old) }
    ensures { Settled m n p.old p.new }
{
    start(p, n, m.last);
    seed(p, n);
    spread(p, n);
    answer(p, n, m.second);
}
