// The rows of the snippets become empty: the scratch may hold those of an earlier comparison.
ghost use Rattle.std.specs.Prelude.{◌+◌, ◌*◌, ◌≤◌, ◌<◌, length};
ghost use Rattle.limits.specs.Limits.{positions};
ghost use Rattle.powers.specs.Blocks.{BlockRoom};
ghost use Rattle.equalities.specs.Steps.{Zeroed, Cleared};

use layout::Blocks;
use limits::Rule;

// The 16 rows at `at`.
fn clear_rows(p: &mut [u16], at: usize)
    requires { at + positions ≤ length p.old }
    ensures { Zeroed at positions p.old p.new }
{
    p[at..at + Rule::MAX_POSITIONS].fill(0);
}

// Those of all exponents below `b` and all nodes: the blocks stand one behind the other.
pub fn clear_snippets(p: &mut [u16], n: usize, b: usize)
    requires { BlockRoom n b p.old }
    ensures { Cleared n (b * n) p.old p.new }
{
    let blocks = b * n;
    for i in 0..blocks {
        clear_rows(p, Blocks::COLUMN * n + Blocks::WORDS * i + Blocks::SNIPPETS);
    }
}
