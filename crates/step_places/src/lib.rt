// Where each step of a comparison's paths stands in an accepted rule, by its number.
#![tactic(auto)]

ghost use Rattle.std.specs.Prelude.{◌≤◌, length};
ghost use Rattle.limits.specs.Limits.{positions};
ghost use Rattle.path_sets.specs.Paths.{Room, TwoPaths};
ghost use Rattle.step_places.specs.Places.{Locates, Places};

use limits::Rule;
use rule_parts::kinds::{PathKind, path_kind};
use rule_parts::skip_path;

// Behind a path: the next number and the next offset.
#[derive(Clone, Copy)]
pub struct Spot {
    pub count: usize,
    pub next: usize,
}

// The offsets of the steps of the path at an offset, numbered from b.
pub fn locate(s: &[u8], at: usize, b: usize, places: &mut [usize]) -> Spot
    requires { Room s.now at b × (positions ≤ length places.old) }
    ensures { Locates s.now at b places.old places.new result }
{
    let k = path_kind(s, at);
    match k {
        PathKind::Empty => Spot {
            count: b,
            next: at + 1,
        },
        PathKind::Seq | PathKind::Union => {
            let p = locate(s, at + 1, b, places);
            locate(s, p.next, p.count, places)
        }
        PathKind::Star => locate(s, at + 1, b, places),
        _ => {
            places[b] = at;
            let j = skip_path(s, at);
            Spot {
                count: b + 1,
                next: j,
            }
        }
    }
}

// The offsets of the steps, 1 to m, of the two paths that stand at the offsets. Without a second offset the second path is empty.
pub fn places_of(s: &[u8], at: usize, behind: Option<usize>) -> [usize; Rule::MAX_POSITIONS]
    requires { TwoPaths s.now at behind }
    ensures { Places s.now at behind result }
{
    let mut places = [0; Rule::MAX_POSITIONS];
    let p = locate(s, at, 1, &mut places);
    if let Some(behind) = behind {
        locate(s, behind, p.count, &mut places);
    }
    places
}
