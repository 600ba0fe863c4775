// The answers by the ranges of ranks.
ghost use Rattle.std.specs.Prelude.{◌≡◌, ◌≤◌, ◌<◌};
ghost use Rattle.limits.specs.Limits.{word_values};
ghost use Rattle.layout.specs.Part.{Space};
ghost use Rattle.layout.specs.Table.{Room};
ghost use Rattle.rank_sets.specs.Ranges.{Across};
ghost use Rattle.plain.specs.Plain.{Answered};
ghost use Rattle.backward.specs.Sweeps.{range_of};

use layout::Sweeps;
use layout::words::get;
use plain::answer;
use rank_sets::ranges::{Range, ordered};
use rule_parts::kinds::Operator;

// The range of the first path at node `v` if `i` is 0, and of the second if `i` is 1.
// `i` stays a number: it is what is added to a column, here and in `range_of`; an enum would be turned back into 0 and 1.
fn range_at(p: &[u16], n: usize, i: usize, v: usize) -> Range
    requires { (i ≤ 1) × (v < n) × Room n p.now }
    ensures { (result ≡ range_of p.now n i v) × (result.least < word_values) }
{
    Range {
        least: get(p, n, Sweeps::LEAST + i, v),
        above: get(p, n, Sweeps::ABOVE + i, v),
    }
}

// The answer at each node: whether the sign stands between some rank of the first range and some rank of the second.
pub fn answer_ordered(p: &mut [u16], n: usize, o: Operator)
    requires { Space n p.old }
    ensures { Answered n (λ v. Across o (range_of p.old n 0 v) (range_of p.old n 1 v)) p.old p.new }
{
    for v in 0..n {
        let a = range_at(p, n, 0, v);
        let b = range_at(p, n, 1, v);
        answer(p, n, v, ordered(a, b, o));
    }
}
