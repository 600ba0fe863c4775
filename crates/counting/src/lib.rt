// A count: whether a path ends at so many different nodes or more, at every node.
#![tactic(auto)]

mod forget;
mod walk;

ghost use Rattle.std.specs.Prelude.{true, ◌↔◌, ◌≡◌, ◌≤◌, ◌<◌};
ghost use Rattle.layout.specs.Part.{Space};
ghost use Rattle.machine.specs.Walks.{Several};
ghost use Rattle.plain.specs.Plain.{Answered};
ghost use Rattle.retracing.specs.Backward.{LinkedBothWays};
ghost use Rattle.counting.specs.Counting.{Clean, Forgot};

use backward::compare_constant;
use forget::forget;
use layout::Part;
use layout::words::fill;
use machine::Machine;
use plain::answer;
use walk::search;

// Whether the first path ends at `k` different nodes or more from node `v`.
fn several_at(p: &mut [u16], n: usize, m: Machine, v: usize, k: usize) -> bool
    requires { Clean n p.old × (v < n) × (0 < k) × (k ≤ n) }
    ensures { Forgot n p.old p.new × ((result ≡ true) ↔ Several m n p.old k v) }
{
    let trail = search(p, n, m, v, k);
    forget(p, n, trail.len);
    trail.enough
}

// The answer at each node, by a walk from it. The columns of what is seen and found are filled once: each walk is forgotten before the next.
fn count_by_walks(p: &mut [u16], n: usize, m: Machine, k: usize)
    requires { Space n p.old × (0 < k) × (k ≤ n) }
    ensures { Answered n (Several m n p.old k) p.old p.new }
{
    fill(p, n, Part::SEEN, 0);
    fill(p, n, Part::FOUND, 0);
    for v in 0..n {
        let b = several_at(p, n, m, v, k);
        answer(p, n, v, b);
    }
}

// The answer at each node: whether the first path ends at `k` different nodes or more. One node is found backwards from all nodes at once, and more nodes than there are nowhere.
pub fn count_nodes(p: &mut [u16], n: usize, m: Machine, k: usize)
    requires { Space n p.old × LinkedBothWays n p.old }
    ensures { Answered n (Several m n p.old k) p.old p.new }
{
    if k == 0 {
        fill(p, n, Part::ANSWER, 1);
        return;
    }
    if k == 1 {
        fill(p, n, Part::HIT, 1);
        compare_constant(p, n, m);
        return;
    }
    if n < k {
        fill(p, n, Part::ANSWER, 0);
        return;
    }
    count_by_walks(p, n, m, k);
}
