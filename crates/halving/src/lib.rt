// The snippets of all powers of a comparison: those of each power handed down to the next lower one, and their number.
#![tactic(auto)]

mod passes;

ghost use Rattle.powers.specs.Blocks.{BlockRoom};
ghost use Rattle.halving.specs.Halving.{Halving, Counts};

use layout::Blocks;
use matrices::size;
use passes::pass;

// The snippets of every power yield those of all lower powers: the exponents go down, so that what is handed down is handed on.
pub fn halve(p: &mut [u16], n: usize, b: usize)
    requires { BlockRoom n b p.old }
    ensures { Halving n b p.old p.new }
{
    for k in (1..b).rev() {
        pass(p, n, k - 1);
    }
}

// The number of snippets. The blocks stand one behind the other, those of an exponent in the order of their nodes.
pub fn count(p: &[u16], n: usize, b: usize) -> usize
    requires { BlockRoom n b p.now }
    ensures { Counts n b p.now result }
{
    let blocks = b * n;
    let mut r = 0;
    for i in 0..blocks {
        r += size(p, Blocks::COLUMN * n + Blocks::WORDS * i + Blocks::SNIPPETS);
    }
    r
}
