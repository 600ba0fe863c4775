// The order of the compared values of two nodes. They are read side by side, a stretch at a time, but for texts that are known to be the same.
ghost use Rattle.std.specs.Prelude.{List, ◌≡◌, ℕ, ◌≤◌, ◌<◌, length};
ghost use Rattle.document_spec.specs.Library as Library;
ghost use Rattle.document_spec.specs.Binary.{compared_of};
ghost use Rattle.document_spec.specs.Verdict.{Accepts};
ghost use Rattle.layout.specs.Words.{NONE};
ghost use Rattle.values.specs.Comes.{Comes, Opens};
ghost use Rattle.string_order.specs.Ordered.{Ordered};
ghost use Rattle.value_order.specs.Twins.{Prepared};

use crate::cursors::behind;
use crate::passing::{Both, pass};
use crate::stretches::look;
use std::cmp::Ordering;
use std::ops::ControlFlow;
use values::{Reading, refill, value_of};

// How the values compare that two cursors have to come.
fn compare(s: &[u8], t: &[u16], n: usize, x: Reading, y: Reading) -> Ordering
    requires { Prepared s.now n t.now × ((ns : List Library.Node) × (bs cs : List ℕ) × Accepts s.now ns × Comes s.now ns x bs × Comes s.now ns y cs) }
    ensures { (ns : List Library.Node) (bs cs : List ℕ) → Accepts s.now ns → Comes s.now ns x bs → Comes s.now ns y cs → Ordered bs cs result }
{
    let mut i = x;
    let mut j = y;
    loop {
        let p: Both = pass(t, n, i, j);
        i = refill(t, n, p.x);
        j = refill(t, n, p.y);
        match look(s, i, s, j) {
            ControlFlow::Break(o) => return o,
            ControlFlow::Continue(k) => {
                i = behind(i, k);
                j = behind(j, k);
            }
        }
    }
}

// Two values that begin at the same place: one begins with the other, and how far they go decides: to which text, and in a lone text to which byte.
fn by_ends(x: Reading, y: Reading) -> Ordering
    ensures { (s : List ℕ) (ns : List Library.Node) (v w : ℕ) → length ns ≤ NONE → Opens s ns v x → Opens s ns w y → x.from ≡ y.from → x.node ≡ y.node → Ordered (compared_of ns v) (compared_of ns w) result }
{
    let o = x.last.cmp(&y.last);
    if o.is_ne() || x.node < x.last {
        return o;
    }
    x.to.cmp(&y.to)
}

// How the value at whose beginning `x` is compares with the value of node `w`.
// Where both begin at the same place they need not be read.
pub fn compare_with(s: &[u8], t: &[u16], n: usize, x: Reading, w: usize) -> Ordering
    requires { Prepared s.now n t.now × (w < n) × ((ns : List Library.Node) × (v : ℕ) × Accepts s.now ns × Opens s.now ns v x) }
    ensures { (ns : List Library.Node) (v : ℕ) → Accepts s.now ns → Opens s.now ns v x → Ordered (compared_of ns v) (compared_of ns w) result }
{
    let y = value_of(t, n, w);
    if x.from == y.from && x.node == y.node {
        return by_ends(x, y);
    }
    compare(s, t, n, x, y)
}
