// The snippet evaluation's way to constants and to the signs other than =: backwards from the ends, so that each position is visited once at each node.
#![tactic(auto)]

mod constants;
mod order;
mod sweeps;

ghost use Rattle.std.specs.Prelude.{◌≢◌, ◌≡◌, ◌<◌};
ghost use Rattle.limits.specs.Limits.{positions};
ghost use Rattle.xpath.specs.Syntax.{Op, eq};
ghost use Rattle.rule_parts.specs.Kinds.{operator};
ghost use Rattle.layout.specs.Part.{Space};
ghost use Rattle.machine.specs.Walks.{Meets, Hits};
ghost use Rattle.plain.specs.Plain.{Answered};
ghost use Rattle.retracing.specs.Backward.{LinkedBothWays};

use buckets::buckets;
use constants::{answer_seen, spread_hits};
use layout::Part;
use layout::words::fill;
use machine::Machine;
use order::answer_ordered;
use rule_parts::kinds::Operator;
use sweeps::sweep;

// The first path and a constant: the nodes whose value is in the relation to it are marked as hits.
pub fn compare_constant(p: &mut [u16], n: usize, m: Machine)
    requires { Space n p.old × LinkedBothWays n p.old }
    ensures { Answered n (Hits m n p.old) p.old p.new }
{
    fill(p, n, Part::SEEN, 0);
    spread_hits(p, n, m);
    answer_seen(p, n);
}

// The two paths of a comparison by a sign other than =, which only asks for the least and the greatest of the ranks that nodes have where each path ends.
pub fn compare_order(p: &mut [u16], n: usize, m: Machine, o: Operator)
    requires { Space n p.old × (m.second < positions) × LinkedBothWays n p.old }
    ensures { (q : Op) → q ≢ eq → o ≡ operator q → Answered n (Meets m n p.old q) p.old p.new }
{
    buckets(p, n);
    sweep(p, n, m);
    answer_ordered(p, n, o);
}
