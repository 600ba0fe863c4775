// Equal ranks: those where the first path ends are marked, and the ends of the second path looked up.
ghost use Rattle.std.specs.Prelude.{true, ◌↔◌, ◌≡◌, ◌<◌};
ghost use Rattle.limits.specs.Limits.{positions};
ghost use Rattle.xpath.specs.Syntax.{eq};
ghost use Rattle.layout.specs.Part.{Space};
ghost use Rattle.machine.specs.Walks.{Meets};
ghost use Rattle.layout.specs.Table.{SmallRanks};
ghost use Rattle.rank_sets.specs.Ends.{Steady};

use layout::Part;
use layout::words::fill;
use machine::Machine;
use rank_sets::marks::{any_marked, mark_ranks};
use reach::reach;

// Whether the paths from node `v` end at nodes of one rank.
pub fn equal_at(p: &mut [u16], n: usize, m: Machine, v: usize) -> bool
    requires { Space n p.old × SmallRanks n p.old × (m.second < positions) × (v < n) }
    ensures { Steady n p.old p.new × ((result ≡ true) ↔ Meets m n p.old eq v) }
{
    fill(p, n, Part::MARK, 0);
    reach(p, n, m, 0, v);
    mark_ranks(p, n, m.last);
    reach(p, n, m, m.second, v);
    any_marked(p, n, m.last)
}
