// A rule that is an equality between two paths, by the values of the nodes in a list. The tests inside it are settled before, by all their values.
ghost use Rattle.std.specs.Prelude.{List, ℕ, ◌<◌};
ghost use Rattle.lists.specs.Lists.{All};
ghost use Rattle.xpath.specs.Syntax.{compare, eq, XPath};
ghost use Rattle.document_spec.specs.Library as Library;
ghost use Rattle.rule_spec.specs.Verdict as Grammar;
ghost use Rattle.driver.specs.Tasks.{Scene, Task, ComparesBy, EvaluatesBy};

use crate::paths::draw_paths;
use crate::{inner_first, settle_tests};
use evaluators::{Evaluator, compare_values};
use layout::Table;
use limits::{Rule, Scratch};
use rule_parts::parted;
use test_passes::take;
use test_places::tests_of;

// The rule itself, where the tests inside it are settled. The number of snippets that the values yield is handed back.
fn compare_rule(rule: &[u8], t: &mut [u16], n: usize, values: &[u16]) -> usize
    requires { ((s : List ℕ) × (ns : List Library.Node) × (P R : XPath) × Task s rule.now ns (compare eq P R) n 0 0 t.old) × All (λ w. w < n) values.now }
    ensures { (s : List ℕ) (ns : List Library.Node) (P R : XPath) → Task s rule.now ns (compare eq P R) n 0 0 t.old → ComparesBy values.now ns n P R t.old t.new result }
{
    let c = parted(rule, 0);
    let o = c.operator;
    let m = draw_paths(rule, t, n, 0, 0, c.second, o);
    let end = Scratch::needed(n);
    let own = compare_values(&mut t[Table::COLUMNS * n..end], n, m, values);
    take(t, n, 0);
    own
}

// Bit 0 says where the values settle the rule. Their snippets and those of all equalities inside the rule are added.
pub fn settle_values(s: &[u8], rule: &[u8], t: &mut [u16], n: usize, values: &[u16]) -> usize
    requires { ((ns : List Library.Node) × (P R : XPath) × Scene s.now ns n t.old × Grammar.Accepts rule.now (compare eq P R)) × All (λ w. w < n) values.now }
    ensures { (ns : List Library.Node) (P R : XPath) → Scene s.now ns n t.old → Grammar.Accepts rule.now (compare eq P R) → EvaluatesBy values.now ns n P R t.old t.new result }
{
    let mut offsets = [0; Rule::MAX_TESTS];
    let count = tests_of(rule, &mut offsets);
    let mut order = [0; Rule::MAX_TESTS];
    inner_first(&mut order, count);
    let e = Evaluator::Snippets;
    let inner = settle_tests(e, s, rule, t, n, &offsets, &order[..count - 1]);
    let own = compare_rule(rule, t, n, values);
    own + inner
}
