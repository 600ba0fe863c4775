// The order of the compared value of a node and a constant.
ghost use Rattle.std.specs.Prelude.{List, ℕ, ◌≤◌, length};
ghost use Rattle.std.proofs.Math.Seq.{slice};
ghost use Rattle.document_spec.specs.Library as Library;
ghost use Rattle.document_spec.specs.Verdict.{Accepts};
ghost use Rattle.values.specs.Comes.{Comes};
ghost use Rattle.value_notes.specs.Notes.{Annotated};
ghost use Rattle.string_order.specs.Ordered.{Ordered};

use crate::cursors::behind;
use crate::stretches::look;
use layout::Table;
use std::cmp::Ordering;
use std::ops::ControlFlow;
use values::{Reading, refill};

// How the value that a cursor has to come compares with the bytes of a constant from one offset up to another.
pub fn compare_constant(
    s: &[u8],
    t: &[u16],
    n: usize,
    x: Reading,
    c: &[u8],
    from: usize,
    to: usize,
) -> Ordering
    requires { ((ns : List Library.Node) × (bs : List ℕ) × Annotated s.now n t.now × Accepts s.now ns × Comes s.now ns x bs) × (from ≤ to) × (to ≤ length c.now) }
    ensures { (ns : List Library.Node) (bs : List ℕ) → Accepts s.now ns → Comes s.now ns x bs → Ordered bs (slice from to c.now) result }
{
    let mut i = x;
    let mut j = Reading {
        from,
        to,
        node: Table::NONE,
        last: Table::NONE,
    };
    loop {
        i = refill(t, n, i);
        match look(s, i, c, j) {
            ControlFlow::Break(o) => return o,
            ControlFlow::Continue(k) => {
                i = behind(i, k);
                j = behind(j, k);
            }
        }
    }
}
