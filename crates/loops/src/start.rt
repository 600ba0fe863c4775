// The matrices at the start: the steps that stay at their node, closed.
ghost use Rattle.detours.specs.Visits.{Ready};
ghost use Rattle.loops.specs.Growing.{Started};

use detours::begin::begin;
use machine::Machine;

// The matrix of each node.
pub fn start(p: &mut [u16], n: usize, m: Machine)
    requires { Ready n p.old }
    ensures { Started m n n p.old p.new }
{
    for v in 0..n {
        begin(p, n, m, v);
    }
}
