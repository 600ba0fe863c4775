// What a byte begins, where a test or a path of some nesting is due.
ghost use Rattle.std.specs.Prelude.{◌≤◌, suc, length};
ghost use Rattle.limits.specs.Limits.{rule_nesting};
ghost use Rattle.tokens.specs.Heads.{TestByte, PathByte, TestBegins, PathBegins};

use crate::read::Refusal;
use limits::Rule;

#[derive(Clone, Copy)]
pub enum TestHead {
    Name,
    Not,
    TwoTests,
    Comparison,
    Count,
}

#[derive(Clone, Copy)]
pub enum PathHead {
    Empty,
    Step,
    Bracket,
    TwoPaths,
    Star,
}

fn test_byte(b: u8) -> Option<TestHead>
    ensures { TestByte b result }
{
    match b {
        b':' => Some(TestHead::Name),
        b'!' => Some(TestHead::Not),
        b'&' | b'|' => Some(TestHead::TwoTests),
        b'(' => Some(TestHead::Comparison),
        b'#' => Some(TestHead::Count),
        _ => None,
    }
}

fn path_byte(b: u8) -> Option<PathHead>
    ensures { PathByte b result }
{
    match b {
        b'e' => Some(PathHead::Empty),
        b'L' | b'R' | b'l' | b'r' => Some(PathHead::Step),
        b'[' => Some(PathHead::Bracket),
        b'+' | b'.' => Some(PathHead::TwoPaths),
        b'*' => Some(PathHead::Star),
        _ => None,
    }
}

// A part too deep is refused only where one begins.
pub fn test_head(s: &[u8], at: usize, n: usize) -> Result<TestHead, Refusal>
    requires { (at ≤ length s.now) × (n ≤ suc rule_nesting) }
    ensures { TestBegins s.now at n result }
{
    if at == s.len() {
        return Err(Refusal::Stuck(at));
    }
    match test_byte(s[at]) {
        Some(test) if n <= Rule::MAX_NESTING => Ok(test),
        Some(_) => Err(Refusal::Deep(at)),
        None => Err(Refusal::Stuck(at)),
    }
}

pub fn path_head(s: &[u8], at: usize, n: usize) -> Result<PathHead, Refusal>
    requires { (at ≤ length s.now) × (n ≤ suc rule_nesting) }
    ensures { PathBegins s.now at n result }
{
    if at == s.len() {
        return Err(Refusal::Stuck(at));
    }
    match path_byte(s[at]) {
        Some(path) if n <= Rule::MAX_NESTING => Ok(path),
        Some(_) => Err(Refusal::Deep(at)),
        None => Err(Refusal::Stuck(at)),
    }
}
