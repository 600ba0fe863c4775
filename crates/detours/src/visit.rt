// One matrix grows by the detours over another: by a step that leaves, by that matrix, and by a step back.
ghost use Rattle.std.specs.Prelude.{◌+◌, ◌≤◌, ◌<◌, length};
ghost use Rattle.limits.specs.Limits.{positions};
ghost use Rattle.matrices.specs.Matrices.{Exactly, Apart};
ghost use Rattle.matrices.specs.Widening.{Widening};
ghost use Rattle.detours.specs.Detours.{Detour};
ghost use Rattle.detours.specs.Visits.{Widened, Visited};

use bits::meet;
use closures::close;
use limits::Rule;
use machine::Machine;
use matrices::followers::followers;
use matrices::image;
use matrices::rows::add;

// Where `i` comes to by a step of `leave`, by the matrix at `over` and by a step of `back`.
fn detour(p: &[u16], m: Machine, over: usize, leave: u16, back: u16, i: usize) -> u16
    requires { (over + positions ≤ length p.now) × (i < positions) }
    ensures { Exactly result (Detour m p.now over leave back i) }
{
    let rows = m.rows;
    let left = meet(rows[i], leave);
    let there = image(p, over, left);
    meet(followers(rows, there), back)
}

// Adds the detours over the matrix at `over` to the one at `at`. Gives the number of rows that are new.
fn widen(p: &mut [u16], m: Machine, over: usize, at: usize, leave: u16, back: u16) -> usize
    requires { Apart over at × (over + positions ≤ length p.old) × (at + positions ≤ length p.old) }
    ensures { Widening (Widened m p.old over at leave back) at positions p.old p.new result }
{
    let mut r: usize = 0;
    for i in 0..Rule::MAX_POSITIONS {
        let w = detour(p, m, over, leave, back, i);
        r += add(p, at + i, w);
    }
    r
}

// The same, and the matrix is closed again. What has no new row is closed already.
pub fn visit(p: &mut [u16], m: Machine, over: usize, at: usize, leave: u16, back: u16) -> usize
    requires { Apart over at × (over + positions ≤ length p.old) × (at + positions ≤ length p.old) }
    ensures { Visited (Widened m p.old over at leave back) at p.old p.new result }
{
    let r = widen(p, m, over, at, leave, back);
    if r == 0 {
        return 0;
    }
    close(p, at);
    r
}
