// An equality between two paths, evaluated by snippets in a comparison's part of the scratch.
#![tactic(auto)]

mod clear;

ghost use Rattle.std.specs.Prelude.{◌<◌};
ghost use Rattle.lists.specs.Lists.{All};
ghost use Rattle.xpath.specs.Syntax.{XPath};
ghost use Rattle.xpath.specs.Tree.{Tree};
ghost use Rattle.loops.specs.Loops.{Stage};
ghost use Rattle.powers.specs.Blocks.{BlockRoom};
ghost use Rattle.machine.specs.Shape.{Shape};
ghost use Rattle.buckets.specs.Buckets.{Buckets};
ghost use Rattle.group_ends.specs.Ends.{Enough};
ghost use Rattle.first_snippets.specs.Groups.{Base};
ghost use Rattle.equalities.specs.Equalities.{Evaluated};
ghost use Rattle.equalities.specs.Steps.{Empty, Prepares, Gathers};

use clear::clear_snippets;
use first_snippets::add_values;
use halving::{count, halve};
use loops::find_loops;
use machine::Machine;
use powers::find_powers;
use settling::settle;

// The loops and the powers, and no snippets yet. The columns of single words stay.
fn prepare(p: &mut [u16], n: usize, b: usize, m: Machine)
    requires { ((P R : XPath) × (t : Tree) × Stage P R t m n p.old) × (0 < n) × BlockRoom n b p.old }
    ensures { Prepares m n b p.old p.new }
{
    find_loops(p, n, m);
    find_powers(p, n, b, m);
    clear_snippets(p, n, b);
}

// The snippets that the values of the nodes in the list yield, and how many there are: those that first snippets yield, and then their halves.
fn gather(p: &mut [u16], n: usize, b: usize, m: Machine, values: &[u16]) -> usize
    requires { Base m n b p.old × (0 < b) × Empty n b p.old × All (λ w. w < n) values.now }
    ensures { Gathers values.now m n b p.old p.new result }
{
    add_values(p, n, b, m, m.first, values);
    halve(p, n, b);
    count(p, n, b)
}

// The number of snippets that the values of the nodes in the list yield is handed back; the answers stand in the first column.
pub fn compare_equal(p: &mut [u16], n: usize, b: usize, m: Machine, values: &[u16]) -> usize
    requires { ((P R : XPath) × (t : Tree) × Stage P R t m n p.old) × ((t : Tree) → Shape t n p.old → Enough t b) × (0 < n) × (0 < b) × BlockRoom n b p.old × Buckets n p.old × All (λ w. w < n) values.now }
    ensures { Evaluated values.now m n p.old p.new result }
{
    prepare(p, n, b, m);
    let r = gather(p, n, b, m, values);
    settle(p, n, m);
    r
}
