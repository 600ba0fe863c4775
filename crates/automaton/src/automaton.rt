// The automaton of a comparison's two paths: 0 is the first path's start, m + 1 the second's.
ghost use Rattle.std.specs.Prelude.{ℕ, ◌<◌};
ghost use Rattle.limits.specs.Limits.{positions};
ghost use Rattle.xpath.specs.Syntax.{XPath};
ghost use Rattle.path_sets.specs.Scanned.{Sets};
ghost use Rattle.path_sets.specs.Paths.{TwoPaths};
ghost use Rattle.automaton.specs.Compared.{Ended, Sums, Tells};

use bits::{insert, union};
use path_sets::scan::scan;
use path_sets::sets::{Scan, given, no_step};

// middle is the number of the first path's last step, count that of the second's. Which position follows which is a square beside it (`follow`), since a struct with an array of arrays is not covered.
#[derive(Clone, Copy)]
pub struct Automaton {
    pub last: u16,
    pub middle: usize,
    pub count: usize,
}

// The last positions of a path whose start is n: n is one of them where the empty word belongs to the path.
fn ends(p: Scan, n: usize) -> u16
    requires { n < positions }
    ensures { (P : XPath) (b : ℕ) → Sets P b p → Ended P b n result }
{
    let w = insert(0, n as u16);
    union(given(p.null, w), p.last)
}

// The scans p of the first path and q of the second.
fn summed(p: Scan, q: Scan) -> Automaton
    requires { (0 < p.count) × (0 < q.count) × (q.count < positions) }
    ensures { Sums p q result }
{
    let u = ends(p, 0);
    let v = ends(q, q.count);
    Automaton {
        last: union(u, v),
        middle: p.count - 1,
        count: q.count - 1,
    }
}

// The paths that stand at the two offsets. Without a second offset the second path is empty.
pub fn automaton_of(s: &[u8], at: usize, behind: Option<usize>) -> Automaton
    requires { TwoPaths s.now at behind }
    ensures { Tells s.now at behind result }
{
    let p = scan(s, at, 1);
    let q = match behind {
        Some(behind) => scan(s, behind, p.count),
        None => no_step(p.count, p.next),
    };
    summed(p, q)
}
