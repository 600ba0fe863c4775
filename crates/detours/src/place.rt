// Where a node hangs, and where the matrix of its parent stands.
ghost use Rattle.std.specs.Prelude.{◌≡◌, true, false, ◌+◌, ◌≤◌, ◌<◌};
ghost use Rattle.limits.specs.Limits.{positions};
ghost use Rattle.layout.specs.Part.{loop_at};
ghost use Rattle.layout.specs.Table.{PARENT};
ghost use Rattle.layout.specs.Words.{word};
ghost use Rattle.detours.specs.Detours.{OnSide};
ghost use Rattle.detours.specs.Visits.{Ready};

use layout::Table;
use layout::places::loop_at;
use layout::words::get;

// The offset of the matrix of its parent.
pub fn above(p: &[u16], n: usize, v: usize) -> usize
    requires { Ready n p.now × (0 < v) × (v < n) }
    ensures { (result ≡ loop_at n (word p.now n PARENT v)) × (result + positions ≤ loop_at n v) }
{
    let u = get(p, n, Table::PARENT, v);
    loop_at(n, u)
}

// Whether it is the left child of its parent.
pub fn is_left(p: &[u16], n: usize, v: usize) -> bool
    requires { Ready n p.now × (0 < v) × (v < n) }
    ensures { (result ≡ true → OnSide p.now n v true) × (result ≡ false → OnSide p.now n v false) }
{
    let u = get(p, n, Table::PARENT, v);
    get(p, n, Table::LEFT, u) == v
}
