// Where each test of an accepted rule stands, by its number.
#![tactic(auto)]

ghost use Rattle.std.specs.Prelude.{◌≤◌, length};
ghost use Rattle.limits.specs.Limits.{rule_tests};
ghost use Rattle.xpath.specs.Syntax.{Test};
ghost use Rattle.rule_spec.specs.Verdict.{Accepts};
ghost use Rattle.rule_parts.specs.Standing.{TestAt, PathAt};
ghost use Rattle.test_numbers.specs.Tests.{tests_of, path_tests, inside};
ghost use Rattle.test_places.specs.Places.{Room, Lists, Listed};

use rule_parts::kinds::{PathKind, TestKind, path_kind, test_kind};
use rule_parts::{counted, parted, skip_path, skip_test};
use tokens::stands;

// The offsets of the test at an offset and of the tests inside it, numbered from k; the next number is handed back.
#[cycle(listing)]
fn list_test(s: &[u8], at: usize, k: usize, offsets: &mut [usize]) -> usize
    requires { Room (TestAt s.now) tests_of at k × (rule_tests ≤ length offsets.old) }
    ensures { Lists (TestAt s.now) tests_of at k s.now offsets.old offsets.new result }
{
    offsets[k] = at;
    list_inside(s, at, k + 1, offsets)
}

// The same for the tests inside the test at an offset. The first part is read twice, to find the second: a rule is short.
#[cycle(listing)]
fn list_inside(s: &[u8], at: usize, k: usize, offsets: &mut [usize]) -> usize
    requires { Room (TestAt s.now) inside at k × (rule_tests ≤ length offsets.old) }
    ensures { Lists (TestAt s.now) inside at k s.now offsets.old offsets.new result }
{
    let kind = test_kind(s, at);
    match kind {
        TestKind::Named => k,
        TestKind::Not => list_test(s, at + 1, k, offsets),
        TestKind::And | TestKind::Or => {
            let behind = skip_test(s, at + 1);
            let n = list_test(s, at + 1, k, offsets);
            list_test(s, behind, n, offsets)
        }
        TestKind::Comparison => {
            let m = parted(s, at);
            let behind = m.second;
            let n = list_path(s, at + 1, k, offsets);
            if stands(s, behind, b'\"') {
                return n;
            }
            list_path(s, behind, n, offsets)
        }
        TestKind::Count => {
            let c = counted(s, at);
            list_path(s, c.path, k, offsets)
        }
    }
}

// The same for the tests in the path at an offset.
#[cycle(listing)]
fn list_path(s: &[u8], at: usize, k: usize, offsets: &mut [usize]) -> usize
    requires { Room (PathAt s.now) path_tests at k × (rule_tests ≤ length offsets.old) }
    ensures { Lists (PathAt s.now) path_tests at k s.now offsets.old offsets.new result }
{
    let kind = path_kind(s, at);
    match kind {
        PathKind::Stay => list_test(s, at + 1, k, offsets),
        PathKind::Seq | PathKind::Union => {
            let behind = skip_path(s, at + 1);
            let n = list_path(s, at + 1, k, offsets);
            list_path(s, behind, n, offsets)
        }
        PathKind::Star => list_path(s, at + 1, k, offsets),
        _ => k,
    }
}

// The offsets of all tests; their number is handed back.
pub fn tests_of(s: &[u8], offsets: &mut [usize]) -> usize
    requires { ((T : Test) × Accepts s.now T) × (rule_tests ≤ length offsets.old) }
    ensures { (T : Test) → Accepts s.now T → Listed s.now T offsets.new result }
{
    list_test(s, 0, 0, offsets)
}
