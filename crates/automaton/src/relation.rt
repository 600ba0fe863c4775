// What follows what in a path, by a walk over its bytes that hands the square on by value. The sets of the parts are scanned anew at each level: a function returns one thing, and these paths are short.
ghost use Rattle.path_sets.specs.Paths.{Room};
ghost use Rattle.automaton.specs.Following.{Relates};

use bits::square::{Square, joined};
use path_sets::scan::scan;
use rule_parts::kinds::{PathKind, path_kind};

// The square with what follows in the path at an offset added; its steps are numbered from b.
pub fn related(s: &[u8], at: usize, b: usize, f: Square) -> Square
    requires { Room s.now at b }
    ensures { Relates s.now at b f result }
{
    let k = path_kind(s, at);
    match k {
        PathKind::Seq => {
            let p = scan(s, at + 1, b);
            let q = scan(s, p.next, p.count);
            let g = related(s, at + 1, b, f);
            let h = related(s, p.next, p.count, g);
            joined(h, p.last, q.first)
        }
        PathKind::Union => {
            let p = scan(s, at + 1, b);
            let g = related(s, at + 1, b, f);
            related(s, p.next, p.count, g)
        }
        PathKind::Star => {
            let p = scan(s, at + 1, b);
            let g = related(s, at + 1, b, f);
            joined(g, p.last, p.first)
        }
        _ => f,
    }
}
