// The driver over a rule's tests: test after test is settled, inner ones first, from the last to the first.
// Which evaluation it is goes along as an argument, and shows only where `evaluators` answers a comparison.
// Document, rule and number of nodes go along one by one: in a struct they read `call.entry.document.now` in an `ensures`, and contracts, proofs and code all got longer (tried).
#![tactic(auto)]

pub mod by_values;
mod comparisons;
mod counts;
mod paths;

ghost use Rattle.std.specs.Prelude.{List, ◌≤◌, length};
ghost use Rattle.xpath.specs.Syntax.{Test};
ghost use Rattle.document_spec.specs.Library as Library;
ghost use Rattle.rule_spec.specs.Verdict as Grammar;
ghost use Rattle.rule_parts.specs.declared.kinds.TestKind.TheVariants.{Comparison};
ghost use Rattle.test_numbers.specs.Tests.{tests_of, test};
ghost use Rattle.test_numbers.specs.Orders.{Falling};
ghost use Rattle.driver.specs.Tasks.{Scene, Task, Shape, Settles, Queue, Drives, Evaluates};

use comparisons::compare;
use counts::count;
use evaluators::Evaluator;
use labels::named;
use limits::Rule;
use rule_parts::kinds::{TestKind, test_kind};
use rule_parts::skip_test;
use test_numbers::second_test;
use test_passes::{both, deny, either, take};
use test_places::tests_of;

// The comparison that stands at an offset is test `k`. The number of its snippets is handed back.
fn comparison(
    e: Evaluator,
    s: &[u8],
    rule: &[u8],
    t: &mut [u16],
    n: usize,
    at: usize,
    k: usize,
) -> usize
    requires { (ns : List Library.Node) × (T : Test) × Task s.now rule.now ns T n at k t.old × Shape Comparison (test (tests_of T) k) }
    ensures { (ns : List Library.Node) (T : Test) → Task s.now rule.now ns T n at k t.old → Shape Comparison (test (tests_of T) k) → Settles e ns n k (test (tests_of T) k) t.old t.new result }
{
    let snippets = compare(e, s, rule, t, n, at, k);
    take(t, n, k);
    snippets
}

// Test `k`, which stands at an offset, where the tests inside it are settled. The number of its snippets is handed back.
fn settle(
    e: Evaluator,
    s: &[u8],
    rule: &[u8],
    t: &mut [u16],
    n: usize,
    at: usize,
    k: usize,
) -> usize
    requires { (ns : List Library.Node) × (T : Test) × Task s.now rule.now ns T n at k t.old }
    ensures { (ns : List Library.Node) (T : Test) → Task s.now rule.now ns T n at k t.old → Settles e ns n k (test (tests_of T) k) t.old t.new result }
{
    let kind = test_kind(rule, at);
    match kind {
        TestKind::Named => {
            let end = skip_test(rule, at);
            named(s, rule, t, n, k, at + 1, end);
            0
        }
        TestKind::Not => {
            deny(t, n, k, k + 1);
            0
        }
        TestKind::And => {
            let b = second_test(rule, at, k);
            both(t, n, k, k + 1, b);
            0
        }
        TestKind::Or => {
            let b = second_test(rule, at, k);
            either(t, n, k, k + 1, b);
            0
        }
        TestKind::Comparison => comparison(e, s, rule, t, n, at, k),
        TestKind::Count => {
            count(rule, t, n, at, k);
            0
        }
    }
}

// The tests of a list, one after the other: any list will do in which no test stands twice and the tests inside one stand before it.
// The snippets of their equalities are added.
fn settle_tests(
    e: Evaluator,
    s: &[u8],
    rule: &[u8],
    t: &mut [u16],
    n: usize,
    offsets: &[usize],
    order: &[usize],
) -> usize
    requires { (ns : List Library.Node) × (T : Test) × Queue s.now rule.now ns T n t.old offsets.now order.now }
    ensures { (ns : List Library.Node) (T : Test) → Queue s.now rule.now ns T n t.old offsets.now order.now → Drives e ns n T order.now t.old t.new result }
{
    let mut snippets = 0;
    for &k in order {
        let own = settle(e, s, rule, t, n, offsets[k], k);
        snippets += own;
    }
    snippets
}

// The numbers of so many tests, from the last to the first: the tests inside one have higher numbers.
fn inner_first(order: &mut [usize], count: usize)
    requires { count ≤ length order.old }
    ensures { Falling count order.new }
{
    for (place, k) in order[..count].iter_mut().enumerate() {
        *k = count - 1 - place;
    }
}

// Where the rule and each test in it hold: bit 0 is that of the rule. The number of snippets of all its equalities is handed back.
pub fn settle_rule(e: Evaluator, s: &[u8], rule: &[u8], t: &mut [u16], n: usize) -> usize
    requires { (ns : List Library.Node) × (T : Test) × Scene s.now ns n t.old × Grammar.Accepts rule.now T }
    ensures { (ns : List Library.Node) (T : Test) → Scene s.now ns n t.old → Grammar.Accepts rule.now T → Evaluates e ns n T t.old t.new result }
{
    let mut offsets = [0; Rule::MAX_TESTS];
    let count = tests_of(rule, &mut offsets);
    let mut order = [0; Rule::MAX_TESTS];
    inner_first(&mut order, count);
    settle_tests(e, s, rule, t, n, &offsets, &order[..count])
}
