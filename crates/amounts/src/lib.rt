// Ranks of the amounts of the nodes of an accepted document: numbers that are in the order of the numerals that their compared values are.
#![tactic(auto)]

mod columns;
pub mod keys;
mod number;
mod sort;

ghost use Rattle.std.specs.Prelude.{List};
ghost use Rattle.document_spec.specs.Library as Library;
ghost use Rattle.document_spec.specs.Verdict.{Accepts};
ghost use Rattle.layout.specs.Table.{COLUMNS, AMOUNT};
ghost use Rattle.layout.specs.Words.{Within};
ghost use Rattle.value_notes.specs.Notes.{Annotated};
ghost use Rattle.amounts.specs.Weighed.{Weighed};

use keys::note_keys;
use number::{number, strike_out};
use sort::sort;

// The rank of each node's amount, in the column for it, or none if its value is no numeral. So amounts are compared here, and behind this only numbers.
pub fn rank_amounts(s: &[u8], t: &mut [u16], n: usize)
    requires { Annotated s.now n t.old }
    ensures { Within n AMOUNT COLUMNS t.old t.new × ((ns : List Library.Node) → Accepts s.now ns → Weighed ns t.new) }
{
    note_keys(s, t, n);
    sort(t, n);
    number(t, n);
    strike_out(t, n);
}
