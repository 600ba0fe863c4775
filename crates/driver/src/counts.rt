// A count: its path is drawn in its part of the scratch, and that part alone is lent to be counted in.
// Either evaluation counts in the same way, and a count has no snippets.
ghost use Rattle.std.specs.Prelude.{List, ℕ};
ghost use Rattle.xpath.specs.Syntax.{Test};
ghost use Rattle.document_spec.specs.Library as Library;
ghost use Rattle.rule_parts.specs.declared.kinds.TestKind.TheVariants.{Count};
ghost use Rattle.test_numbers.specs.Tests.{tests_of, test};
ghost use Rattle.driver.specs.Tasks.{Task, Shape, Decided};

use crate::paths::draw_path;
use counting::count_nodes;
use layout::Table;
use limits::Scratch;
use rule_parts::counted;
use test_passes::take;

// The count that stands at an offset is test `k`.
pub fn count(rule: &[u8], t: &mut [u16], n: usize, at: usize, k: usize)
    requires { (s : List ℕ) × (ns : List Library.Node) × (T : Test) × Task s rule.now ns T n at k t.old × Shape Count (test (tests_of T) k) }
    ensures { (s : List ℕ) (ns : List Library.Node) (T : Test) → Task s rule.now ns T n at k t.old → Shape Count (test (tests_of T) k) → Decided ns n k (test (tests_of T) k) t.old t.new }
{
    let c = counted(rule, at);
    let m = draw_path(rule, t, n, c.path, k + 1);
    let end = Scratch::needed(n);
    count_nodes(&mut t[Table::COLUMNS * n..end], n, m, c.nodes);
    take(t, n, k);
}
