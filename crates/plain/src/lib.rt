// The plain evaluation of one comparison at every node, in the part of the scratch that is lent for it.
#![tactic(auto)]

mod ends;
mod equal;
mod ordered;

ghost use Rattle.std.specs.Prelude.{true, [], ◌∷◌, ◌↔◌, ◌≡◌, ◌≤◌, ◌<◌};
ghost use Rattle.limits.specs.Limits.{positions};
ghost use Rattle.bits.specs.Sets.{one};
ghost use Rattle.xpath.specs.Syntax.{Op};
ghost use Rattle.layout.specs.Part.{ANSWER, Space};
ghost use Rattle.layout.specs.Words.{cell, Wrote};
ghost use Rattle.rule_parts.specs.Kinds.{operator};
ghost use Rattle.rule_parts.specs.declared.kinds.Operator.TheVariants.{Equal};
ghost use Rattle.machine.specs.Walks.{Meets, Hits};
ghost use Rattle.layout.specs.Table.{SmallRanks};
ghost use Rattle.rank_sets.specs.Ends.{Steady};
ghost use Rattle.plain.specs.Plain.{Answered};

use ends::any_hit;
use equal::equal_at;
use layout::Part;
use layout::words::put;
use machine::Machine;
use ordered::ordered_at;
use reach::reach;
use rule_parts::kinds::Operator;

// Whether the comparison of the two paths holds at node `v`.
fn meets_at(p: &mut [u16], n: usize, m: Machine, v: usize, o: Operator) -> bool
    requires { Space n p.old × (o ≡ Equal → SmallRanks n p.old) × (m.second < positions) × (v < n) }
    ensures { Steady n p.old p.new × ((q : Op) → o ≡ operator q → (result ≡ true) ↔ Meets m n p.old q v) }
{
    match o {
        Operator::Equal => equal_at(p, n, m, v),
        _ => ordered_at(p, n, m, v, o),
    }
}

// Whether the first path from node `v` ends at a hit.
fn hits_at(p: &mut [u16], n: usize, m: Machine, v: usize) -> bool
    requires { Space n p.old × (v < n) }
    ensures { Steady n p.old p.new × ((result ≡ true) ↔ Hits m n p.old v) }
{
    reach(p, n, m, 0, v);
    any_hit(p, n, m.last)
}

// The answer of node `v` becomes `b`.
pub fn answer(p: &mut [u16], n: usize, v: usize, b: bool)
    requires { Space n p.old × (v < n) }
    ensures { Wrote ((cell n ANSWER v, one b) ∷ []) p.old p.new }
{
    put(p, n, Part::ANSWER, v, usize::from(b));
}

// The two paths of a comparison. Equal ranks are marked, so each node must have one.
pub fn compare_paths(p: &mut [u16], n: usize, m: Machine, o: Operator)
    requires { Space n p.old × (o ≡ Equal → SmallRanks n p.old) × (m.second < positions) }
    ensures { (q : Op) → o ≡ operator q → Answered n (Meets m n p.old q) p.old p.new }
{
    for v in 0..n {
        let b = meets_at(p, n, m, v, o);
        answer(p, n, v, b);
    }
}

// The first path and a constant: the nodes whose value is in the relation to it are marked as hits.
pub fn compare_constant(p: &mut [u16], n: usize, m: Machine)
    requires { Space n p.old }
    ensures { Answered n (Hits m n p.old) p.old p.new }
{
    for v in 0..n {
        let b = hits_at(p, n, m, v);
        answer(p, n, v, b);
    }
}
