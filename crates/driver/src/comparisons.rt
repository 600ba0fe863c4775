// A comparison: what its evaluator needs is drawn in its part of the scratch, and that part alone is lent to it.
ghost use Rattle.std.specs.Prelude.{List};
ghost use Rattle.xpath.specs.Syntax.{Test};
ghost use Rattle.document_spec.specs.Library as Library;
ghost use Rattle.rule_parts.specs.declared.kinds.TestKind.TheVariants.{Comparison};
ghost use Rattle.test_numbers.specs.Tests.{tests_of, test};
ghost use Rattle.driver.specs.Tasks.{Task, Shape, Paths, Constant, Answers, Compares};

use crate::paths::{draw_path, draw_paths};
use evaluators::{Evaluator, compare_constant, compare_paths};
use layout::Table;
use limits::Scratch;
use rule_parts::kinds::Operator;
use rule_parts::{parted, skip_test};
use staging::draw_hits;
use tokens::stands;

// Two paths, the first right behind the comparison's bracket. Their evaluator gets the middle of the scratch.
fn between_paths(
    e: Evaluator,
    s: &[u8],
    rule: &[u8],
    t: &mut [u16],
    n: usize,
    at: usize,
    k: usize,
    behind: usize,
    o: Operator,
) -> usize
    requires { (ns : List Library.Node) × (T : Test) × Paths s.now rule.now ns T n at k t.old behind o }
    ensures { (ns : List Library.Node) (T : Test) → Paths s.now rule.now ns T n at k t.old behind o → Compares e ns n (test (tests_of T) k) t.old t.new result }
{
    let m = draw_paths(rule, t, n, at, k, behind, o);
    let end = Scratch::needed(n);
    compare_paths(e, &mut t[Table::COLUMNS * n..end], n, m, o)
}

// A path and the constant that stands from one offset up to another.
fn with_constant(
    e: Evaluator,
    s: &[u8],
    rule: &[u8],
    t: &mut [u16],
    n: usize,
    at: usize,
    k: usize,
    from: usize,
    to: usize,
    o: Operator,
)
    requires { (ns : List Library.Node) × (T : Test) × Constant s.now rule.now ns T n at k t.old from to o }
    ensures { (ns : List Library.Node) (T : Test) → Constant s.now rule.now ns T n at k t.old from to o → Answers ns n (test (tests_of T) k) t.old t.new }
{
    let m = draw_path(rule, t, n, at + 1, k + 1);
    draw_hits(s, rule, t, n, from, to, o);
    let end = Scratch::needed(n);
    compare_constant(e, &mut t[Table::COLUMNS * n..end], n, m);
}

// The comparison that stands at an offset: its answers are left in the first column of its part, and the number of its snippets is handed back.
pub fn compare(
    e: Evaluator,
    s: &[u8],
    rule: &[u8],
    t: &mut [u16],
    n: usize,
    at: usize,
    k: usize,
) -> usize
    requires { (ns : List Library.Node) × (T : Test) × Task s.now rule.now ns T n at k t.old × Shape Comparison (test (tests_of T) k) }
    ensures { (ns : List Library.Node) (T : Test) → Task s.now rule.now ns T n at k t.old → Shape Comparison (test (tests_of T) k) → Compares e ns n (test (tests_of T) k) t.old t.new result }
{
    let c = parted(rule, at);
    let o = c.operator;
    if stands(rule, c.second, b'"') {
        let end = skip_test(rule, at);
        with_constant(e, s, rule, t, n, at, k, c.second + 1, end - 2, o);
        return 0;
    }
    between_paths(e, s, rule, t, n, at, k, c.second, o)
}
