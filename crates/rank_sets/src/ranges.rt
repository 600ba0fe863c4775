// Ranks as ranges: the least and the greatest rank where a walk ends, and what two ranges say of the signs. A word that is not below the number of nodes is no rank.
ghost use Rattle.std.specs.Prelude.{true, ◌⊎◌, ◌↔◌, ◌≡◌, suc, ◌≤◌, ◌<◌};
ghost use Rattle.limits.specs.Limits.{word_values};
ghost use Rattle.layout.specs.Table.{RANK, Room};
ghost use Rattle.layout.specs.Words.{word};
ghost use Rattle.rank_sets.specs.Ends.{Ended};
ghost use Rattle.rank_sets.specs.Ranges.{WithRank, Ranged, Under, Across};

use crate::ends::ends_at;
use layout::Table;
use layout::words::get;
use rule_parts::kinds::Operator;

// The least rank, and one more than the greatest; 65535 and 0 where there is none, so that the first rank widens a range like any other.
#[derive(Clone, Copy)]
pub struct Range {
    pub least: usize,
    pub above: usize,
}

// The range with the rank of node `w`, if the walk ends there and `w` has a rank.
fn widened(p: &[u16], n: usize, last: u16, w: usize, a: Range) -> Range
    requires { (w < n) × Room n p.now × Ranged w (WithRank n (word p.now n RANK) (Ended n last p.now)) (word p.now n RANK) a }
    ensures { Ranged (suc w) (WithRank n (word p.now n RANK) (Ended n last p.now)) (word p.now n RANK) result }
{
    if ends_at(p, n, last, w) {
        let r = get(p, n, Table::RANK, w);
        if r < n {
            return Range {
                least: a.least.min(r),
                above: a.above.max(r + 1),
            };
        }
    }
    a
}

// The range of the ranks that nodes have where the walk ends.
pub fn rank_range(p: &[u16], n: usize, last: u16) -> Range
    requires { Room n p.now }
    ensures { Ranged n (WithRank n (word p.now n RANK) (Ended n last p.now)) (word p.now n RANK) result }
{
    let mut a = Range {
        least: Table::NONE,
        above: 0,
    };
    for w in 0..n {
        a = widened(p, n, last, w, a);
    }
    a
}

// Whether some rank of the first range is less than some rank of the second.
fn under(a: Range, b: Range) -> bool
    requires { a.least < word_values }
    ensures { (result ≡ true) ↔ Under a b }
{
    a.least + 1 < b.above
}

// Whether the sign stands between some rank of the first range and some rank of the second. Ranges tell nothing of equal ranks: `=` is not asked here.
pub fn ordered(a: Range, b: Range, o: Operator) -> bool
    requires { (a.least < word_values) × (b.least < word_values) }
    ensures { (result ≡ true) ↔ Across o a b }
{
    match o {
        Operator::Equal => false,
        Operator::Unequal => under(a, b) || under(b, a),
        Operator::Less => under(a, b),
        Operator::LessEqual => a.least < b.above,
        Operator::Greater => under(b, a),
        Operator::GreaterEqual => b.least < a.above,
    }
}
