// The paths of a comparison, or the one of a count: their machine, and what an evaluator needs of the tree for them.
ghost use Rattle.std.specs.Prelude.{List, ℕ};
ghost use Rattle.xpath.specs.Syntax.{Test, XPath};
ghost use Rattle.document_spec.specs.Library as Library;
ghost use Rattle.driver.specs.Tasks.{Paths, Ready, PathDrawn, PathsDrawn};

use compiler::machine_of;
use machine::Machine;
use rule_parts::kinds::Operator;
use staging::{draw, draw_ranks, draw_tests, ranks_of};
use test_numbers::bracket_tests;

// The one path that stands at an offset, where the tests in its brackets have the numbers from `k` on.
pub fn draw_path(rule: &[u8], t: &mut [u16], n: usize, at: usize, k: usize) -> Machine
    requires { (s : List ℕ) × (ns : List Library.Node) × (P : XPath) × Ready s rule.now ns P n at k t.old }
    ensures { (s : List ℕ) (ns : List Library.Node) (P : XPath) → Ready s rule.now ns P n at k t.old → PathDrawn ns n P result t.old t.new }
{
    let m = machine_of(rule, at, None);
    let numbers = bracket_tests(rule, at, None, k);
    draw(t, n);
    draw_tests(t, n, m.brackets, numbers);
    m
}

// The two paths of a comparison, which is test `k`: the first right behind its bracket, the second at an offset of its own.
pub fn draw_paths(
    rule: &[u8],
    t: &mut [u16],
    n: usize,
    at: usize,
    k: usize,
    behind: usize,
    o: Operator,
) -> Machine
    requires { (s : List ℕ) × (ns : List Library.Node) × (T : Test) × Paths s rule.now ns T n at k t.old behind o }
    ensures { (s : List ℕ) (ns : List Library.Node) (T : Test) (h : Paths s rule.now ns T n at k t.old behind o) → PathsDrawn ns n h.sign h.first h.second result t.old t.new }
{
    let m = machine_of(rule, at + 1, Some(behind));
    let numbers = bracket_tests(rule, at + 1, Some(behind), k + 1);
    draw(t, n);
    draw_tests(t, n, m.brackets, numbers);
    let c = ranks_of(o);
    draw_ranks(t, n, c);
    m
}
