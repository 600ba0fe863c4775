// Which position of a comparison may follow which: a square, by value.
ghost use Rattle.std.specs.Prelude.{ℕ, ◌<◌};
ghost use Rattle.limits.specs.Limits.{positions};
ghost use Rattle.xpath.specs.Syntax.{XPath};
ghost use Rattle.path_sets.specs.Scanned.{Sets};
ghost use Rattle.path_sets.specs.Paths.{TwoPaths};
ghost use Rattle.automaton.specs.Compared.{Started, TellsFollow};

use crate::relation::related;
use bits::insert;
use bits::square::{Square, empty, joined};
use path_sets::scan::scan;
use path_sets::sets::Scan;

// The first steps of the path that was scanned follow its start n.
fn started(f: Square, p: Scan, n: usize) -> Square
    requires { n < positions }
    ensures { (P : XPath) (b : ℕ) → Sets P b p → Started P b n f result }
{
    let w = insert(0, n as u16);
    joined(f, w, p.first)
}

// The paths that stand at the two offsets. Without a second offset the second path is empty, and nothing follows in it.
pub fn follow_of(s: &[u8], at: usize, behind: Option<usize>) -> Square
    requires { TwoPaths s.now at behind }
    ensures { TellsFollow s.now at behind result }
{
    let p = scan(s, at, 1);
    let f = related(s, at, 1, empty());
    let g = started(f, p, 0);
    match behind {
        Some(behind) => {
            let q = scan(s, behind, p.count);
            let h = related(s, behind, p.count, g);
            started(h, q, q.count)
        }
        None => g,
    }
}
