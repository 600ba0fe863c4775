// Ranks in an order: of the ranks that nodes have where a path ends only the least and the greatest count.
ghost use Rattle.std.specs.Prelude.{true, ◌↔◌, ◌≢◌, ◌≡◌, ◌<◌};
ghost use Rattle.limits.specs.Limits.{positions};
ghost use Rattle.xpath.specs.Syntax.{Op, eq};
ghost use Rattle.rule_parts.specs.Kinds.{operator};
ghost use Rattle.layout.specs.Part.{Space};
ghost use Rattle.machine.specs.Walks.{Meets};
ghost use Rattle.rank_sets.specs.Ends.{Steady};

use machine::Machine;
use rank_sets::ranges::{ordered, rank_range};
use reach::reach;
use rule_parts::kinds::Operator;

// Whether the paths from node `v` end at nodes whose ranks are in the relation of a sign other than =. Where the first ends at no rank, the second is not walked.
pub fn ordered_at(p: &mut [u16], n: usize, m: Machine, v: usize, o: Operator) -> bool
    requires { Space n p.old × (m.second < positions) × (v < n) }
    ensures { Steady n p.old p.new × ((q : Op) → q ≢ eq → o ≡ operator q → (result ≡ true) ↔ Meets m n p.old q v) }
{
    reach(p, n, m, 0, v);
    let a = rank_range(p, n, m.last);
    if a.above == 0 {
        return false;
    }
    reach(p, n, m, m.second, v);
    let b = rank_range(p, n, m.last);
    ordered(a, b, o)
}
