// The tests of an accepted rule, numbered by their first bytes.
#![tactic(auto)]

ghost use Rattle.std.specs.Prelude.{◌≡◌, ℕ, suc, ◌+◌, ◌≤◌, ◌<◌, length};
ghost use Rattle.limits.specs.Limits.{positions, rule_tests, rule_bytes};
ghost use Rattle.xpath.specs.Syntax.{Test, and, or};
ghost use Rattle.rule_parts.specs.Standing.{TestAt};
ghost use Rattle.test_numbers.specs.Tests.{tests_of};
ghost use Rattle.test_numbers.specs.Numbering.{TwoNumbered, NumbersTwo};
ghost use Rattle.test_numbers.specs.Walks.{PathRoom, Walks};

use limits::Rule;
use rule_parts::kinds::{PathKind, path_kind};
use rule_parts::{skip_path, skip_test, tests_in};

// The number of the second test inside the test `k` that stands at an offset.
// Where no such test stands the readers promise nothing, and what they answer is not used.
pub fn second_test(s: &[u8], at: usize, k: usize) -> usize
    requires { (at < length s.now) × (length s.now ≤ rule_bytes) × (k < rule_tests) }
    ensures { ((T U : Test) (j : ℕ) → TestAt s.now (and T U) at j → result ≡ suc k + length (tests_of T)) × ((T U : Test) (j : ℕ) → TestAt s.now (or T U) at j → result ≡ suc k + length (tests_of T)) }
{
    let behind = skip_test(s, at + 1);
    if behind <= at {
        return k;
    }
    if s.len() < behind {
        return k;
    }
    let n = tests_in(s, at + 1, behind);
    if s.len() < n {
        return k;
    }
    k + 1 + n
}

// Behind a path: the number of the next step and that of the next test.
#[derive(Clone, Copy)]
struct Next {
    step: usize,
    test: usize,
}

// The number of the test in each bracket of the path at an offset, whose steps are numbered from b and its tests from k.
fn number(s: &[u8], at: usize, b: usize, k: usize, numbers: &mut [usize]) -> Next
    requires { PathRoom s.now at b k × (positions ≤ length numbers.old) }
    ensures { Walks s.now at b k numbers.old numbers.new result }
{
    let kind = path_kind(s, at);
    match kind {
        PathKind::Empty => Next { step: b, test: k },
        PathKind::Stay => {
            numbers[b] = k;
            let end = skip_test(s, at + 1);
            let n = tests_in(s, at + 1, end);
            Next {
                step: b + 1,
                test: k + n,
            }
        }
        PathKind::Seq | PathKind::Union => {
            let behind = skip_path(s, at + 1);
            let p = number(s, at + 1, b, k, numbers);
            number(s, behind, p.step, p.test, numbers)
        }
        PathKind::Star => number(s, at + 1, b, k, numbers),
        _ => Next {
            step: b + 1,
            test: k,
        },
    }
}

// The number of the test in each bracket of the two paths that stand at the offsets, whose tests are numbered from `k` on.
// Without a second offset the second path is empty.
pub fn bracket_tests(
    s: &[u8],
    at: usize,
    behind: Option<usize>,
    k: usize,
) -> [usize; Rule::MAX_POSITIONS]
    requires { TwoNumbered s.now at behind k }
    ensures { NumbersTwo s.now at behind k result }
{
    let mut numbers = [0; Rule::MAX_POSITIONS];
    let p = number(s, at, 1, k, &mut numbers);
    if let Some(behind) = behind {
        number(s, behind, p.step, p.test, &mut numbers);
    }
    numbers
}
