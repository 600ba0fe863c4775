// The positions that end where they are.
ghost use Rattle.std.specs.Prelude.{List, ℕ, ◌*◌, ◌≤◌, ◌<◌, length};
ghost use Rattle.limits.specs.Limits.{document_nodes};
ghost use Rattle.xpath.specs.Syntax.{XPath};
ghost use Rattle.xpath.specs.Tree.{Tree};
ghost use Rattle.snippets.specs.Ways.{Own};
ghost use Rattle.powers.specs.Powers.{Ready};
ghost use Rattle.group_marks.specs.Groups.{Ranks};
ghost use Rattle.layout.specs.Part.{PAIRS};
ghost use Rattle.matrices.specs.Matrices.{Exactly};

use layout::Table;
use layout::places::loop_at;
use layout::words::get;
use machine::Machine;
use matrices::before;

// The positions that at node `v` end at `v`, if it has the rank `r` of the group.
pub fn own(p: &[u16], n: usize, m: Machine, v: usize, r: usize) -> u16
    requires { (v < n) × (n ≤ document_nodes) × (PAIRS * n ≤ length p.now) }
    ensures { (P R : XPath) (t : Tree) (d : List ℕ) → Ready P R t m n p.now → Ranks t d n r p.now → Exactly result (Own t P R d v) }
{
    if get(p, n, Table::RANK, v) == r {
        return before(p, loop_at(n, v), m.last);
    }
    0
}
