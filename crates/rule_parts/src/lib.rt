// Readers over an accepted rule: where its parts end, and what they are.
#![tactic(auto)]

pub mod kinds;

ghost use Rattle.std.specs.Prelude.{◌≡◌, ℕ, ◌≤◌, ◌<◌, length};
ghost use Rattle.xpath.specs.Syntax.{Test, XPath, at_least};
ghost use Rattle.rule_spec.specs.Parts.{tests, test_parts};
ghost use Rattle.rule_parts.specs.Standing.{TestAt, PathAt};
ghost use Rattle.rule_parts.specs.Middles.{Parted, Counted};

use kinds::{Operator, read_sign};
use rule_readers::readers::{read_path, read_test};
use tokens::figures;
use tokens::read::{Refusal, Tally};

// Only the offset is asked for, so the tally may be any.
const UNTOLD: Tally = Tally {
    left: 0,
    crowded: 0,
    heavy: 0,
};

// Where the test ends that stands at an offset. Where none stands nothing is promised, and the place where reading stopped is told.
pub fn skip_test(s: &[u8], at: usize) -> usize
    requires { at ≤ length s.now }
    ensures { (T : Test) (j : ℕ) → TestAt s.now T at j → result ≡ j }
{
    match read_test(s, at, 1, 0, UNTOLD) {
        Ok(behind) => behind.next,
        Err(Refusal::Stuck(j) | Refusal::Deep(j)) => j,
    }
}

// Where the path ends that stands at an offset; where none stands, the same.
pub fn skip_path(s: &[u8], at: usize) -> usize
    requires { at ≤ length s.now }
    ensures { (P : XPath) (j : ℕ) → PathAt s.now P at j → result ≡ j }
{
    match read_path(s, at, 1, 0, UNTOLD) {
        Ok(behind) => behind.next,
        Err(Refusal::Stuck(j) | Refusal::Deep(j)) => j,
    }
}

// The number of tests that begin in the test that stands between two offsets, itself among them.
pub fn tests_in(s: &[u8], at: usize, end: usize) -> usize
    requires { (at ≤ end) × (end ≤ length s.now) }
    ensures { (T : Test) → TestAt s.now T at end → result ≡ length (tests (test_parts T at 1)) }
{
    let width = end - at;
    let t = Tally {
        left: width,
        crowded: 0,
        heavy: 0,
    };
    match read_test(&s[..end], at, 1, 0, t) {
        Ok(behind) => width - behind.tally.left,
        Err(_) => 0,
    }
}

// The sign of a comparison, where it stands, and where the second operand begins.
#[derive(Clone, Copy)]
pub struct Middle {
    pub operator: Operator,
    pub sign: usize,
    pub second: usize,
}

// The middle of the comparison that stands at an offset; of another test it says nothing.
pub fn parted(s: &[u8], at: usize) -> Middle
    requires { at < length s.now }
    ensures { (T : Test) (j : ℕ) → TestAt s.now T at j → Parted s.now T at j result }
{
    let m = skip_path(s, at + 1);
    if m < s.len() {
        let sign = read_sign(s, m);
        return Middle {
            operator: sign.operator,
            sign: m,
            second: sign.next,
        };
    }
    Middle {
        operator: Operator::Equal,
        sign: m,
        second: m,
    }
}

// The number in a count, and where its path begins.
#[derive(Clone, Copy)]
pub struct Count {
    pub nodes: usize,
    pub path: usize,
}

// The number and the path of the count that stands at an offset; of another test it says nothing.
pub fn counted(s: &[u8], at: usize) -> Count
    requires { at < length s.now }
    ensures { (n : ℕ) (P : XPath) (j : ℕ) → TestAt s.now (at_least n P) at j → Counted s.now n P j result }
{
    let f = figures(s, at + 1);
    Count {
        nodes: f.value,
        path: f.next,
    }
}
