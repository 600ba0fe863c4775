// Texts that are known to be the same at two cursors are passed without a look at their bytes.
ghost use Rattle.std.specs.Prelude.{List, ◌≡◌, true, ℕ, ◌≤◌, ◌<◌};
ghost use Rattle.document_spec.specs.Library as Library;
ghost use Rattle.document_spec.specs.Verdict.{Accepts};
ghost use Rattle.values.specs.Comes.{Comes, weight};
ghost use Rattle.value_order.specs.Along.{Along};
ghost use Rattle.value_order.specs.Twins.{Prepared, SameText};

use crate::cursors::{is_between, past};
use layout::words::get;
use layout::{Ranking, Values};
use values::Reading;

// Two cursors.
#[derive(Clone, Copy)]
pub struct Both {
    pub x: Reading,
    pub y: Reading,
}

// Whether the texts of two nodes are known to be the same: by their twins and the blanks around them.
fn same_text(t: &[u16], n: usize, a: usize, b: usize) -> bool
    requires { ((s : List ℕ) × Prepared s n t.now) × (a < n) × (b < n) }
    ensures { result ≡ true → (s : List ℕ) (ns : List Library.Node) → Prepared s n t.now → Accepts s ns → SameText ns a b }
{
    get(t, n, Ranking::TWIN, a) == get(t, n, Ranking::TWIN, b)
        && get(t, n, Values::BLANKS, a) == get(t, n, Values::BLANKS, b)
}

// Both cursors behind the texts that come next at both and are known to be the same, as long as neither is the last one.
pub fn pass(t: &[u16], n: usize, x: Reading, y: Reading) -> Both
    requires { (s : List ℕ) × (ns : List Library.Node) × (bs cs : List ℕ) × Prepared s n t.now × Accepts s ns × Comes s ns x bs × Comes s ns y cs }
    ensures { (s : List ℕ) (ns : List Library.Node) (bs cs : List ℕ) → Prepared s n t.now → Accepts s ns → Comes s ns x bs → Comes s ns y cs → Along s s ns bs cs result.x result.y × (weight s result.x ≤ weight s x) }
{
    let mut i = x;
    let mut j = y;
    while is_between(i) && is_between(j) {
        let a = get(t, n, Values::NEXT, i.node);
        let b = get(t, n, Values::NEXT, j.node);
        if a == i.last || b == j.last {
            return Both { x: i, y: j };
        }
        if !same_text(t, n, a, b) {
            return Both { x: i, y: j };
        }
        i = past(i, a);
        j = past(j, b);
    }
    Both { x: i, y: j }
}
