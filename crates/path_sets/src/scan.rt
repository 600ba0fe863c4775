// A path's sets, by one walk over its bytes.
ghost use Rattle.path_sets.specs.Paths.{Room};
ghost use Rattle.path_sets.specs.Scanned.{Scans};

use crate::sets::{Scan, either, in_sequence, no_step, one_step, repeated};
use rule_parts::kinds::{PathKind, path_kind};
use rule_parts::skip_path;

// The path at an offset, its steps numbered from b.
pub fn scan(s: &[u8], at: usize, b: usize) -> Scan
    requires { Room s.now at b }
    ensures { Scans s.now at b result }
{
    let k = path_kind(s, at);
    match k {
        PathKind::Empty => no_step(b, at + 1),
        PathKind::Seq => {
            let p = scan(s, at + 1, b);
            let q = scan(s, p.next, p.count);
            in_sequence(p, q)
        }
        PathKind::Union => {
            let p = scan(s, at + 1, b);
            let q = scan(s, p.next, p.count);
            either(p, q)
        }
        PathKind::Star => {
            let p = scan(s, at + 1, b);
            repeated(p)
        }
        _ => {
            let j = skip_path(s, at);
            one_step(b, j)
        }
    }
}
