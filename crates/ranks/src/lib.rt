// Ranks of the nodes of an accepted document: numbers that are in the order of the compared values.
#![tactic(auto)]

mod number;
mod sort;

ghost use Rattle.std.specs.Prelude.{List};
ghost use Rattle.document_spec.specs.Library as Library;
ghost use Rattle.document_spec.specs.Verdict.{Accepts};
ghost use Rattle.table.specs.Links.{Linked};
ghost use Rattle.table.specs.Tabled.{Tabled};
ghost use Rattle.ranks.specs.Ranks.{Written};

use number::number;
use sort::sort;
use value_notes::marks::mark_all;

// The rank of each node, in the column for it: so values are compared here, and behind this only numbers.
pub fn rank(s: &[u8], t: &mut [u16], n: usize)
    requires { Tabled s.now n t.old }
    ensures { (ns : List Library.Node) → Accepts s.now ns → Linked s.now ns t.old → Written s.now ns t.old t.new }
{
    mark_all(s, t, n);
    sort(s, t, n);
    number(s, t, n);
}
