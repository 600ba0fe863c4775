// The matrix of a node at the start: the steps that stay there, closed.
ghost use Rattle.std.specs.Prelude.{◌+◌, ◌≤◌, ◌<◌, length};
ghost use Rattle.limits.specs.Limits.{positions};
ghost use Rattle.matrices.specs.Matrices.{Drawing};
ghost use Rattle.detours.specs.Visits.{Ready, Steps, Begun};

use bits::meet;
use closures::close;
use layout::Part;
use layout::places::loop_at;
use layout::words::get;
use limits::Rule;
use machine::Machine;

// The matrix at `at` becomes the steps of `w`.
fn draw(p: &mut [u16], rows: [u16; Rule::MAX_POSITIONS], at: usize, w: u16)
    requires { at + positions ≤ length p.old }
    ensures { Drawing (Steps rows w) at positions p.old p.new }
{
    for i in 0..Rule::MAX_POSITIONS {
        p[at + i] = meet(rows[i], w);
    }
}

// The matrix of node `v`.
pub fn begin(p: &mut [u16], n: usize, m: Machine, v: usize)
    requires { Ready n p.old × (v < n) }
    ensures { Begun m n v p.old p.new }
{
    let at = loop_at(n, v);
    let w = get(p, n, Part::STAYS, v) as u16;
    let rows = m.rows;
    draw(p, rows, at, w);
    close(p, at);
}
