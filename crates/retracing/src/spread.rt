// The backward walk from some positions at a node.
ghost use Rattle.reach.specs.Work.{Work};
ghost use Rattle.retracing.specs.Backward.{LinkedBothWays, Closed, Backed};

use crate::retrace::retrace;
use machine::Machine;
use reach::list::add;

// All that walks to a position of `set` at node `w` is seen. What was seen before is closed, so only the new entries are gone through. Gives the number of entries.
pub fn spread(p: &mut [u16], n: usize, m: Machine, w: usize, set: u16, len: usize) -> usize
    requires { Work n len p.old × LinkedBothWays n p.old × Closed m n p.old }
    ensures { Backed m n w set len result p.old p.new }
{
    let mut end = add(p, n, w, set, len);
    let mut h = len;
    while h < end {
        end = retrace(p, n, m, h, end);
        h += 1;
    }
    end
}
