// What a test or a path is, by its first byte, and which sign stands in a comparison.
ghost use Rattle.std.specs.Prelude.{◌≡◌, ℕ, ◌<◌, length};
ghost use Rattle.xpath.specs.Syntax.{Op, Test, XPath};
ghost use Rattle.rule_parts.specs.Standing.{TestAt, PathAt, SignAt};
ghost use Rattle.rule_parts.specs.Kinds.{test_kind, path_kind, signed, longer, shorter};

use tokens::stands;

#[derive(Clone, Copy)]
pub enum TestKind {
    Named,
    Not,
    And,
    Or,
    Comparison,
    Count,
}

#[derive(Clone, Copy)]
pub enum PathKind {
    Empty,
    ToLeft,
    ToRight,
    FromLeft,
    FromRight,
    Stay,
    Seq,
    Union,
    Star,
}

#[derive(Clone, Copy)]
pub enum Operator {
    Equal,
    Unequal,
    Less,
    LessEqual,
    Greater,
    GreaterEqual,
}

// A sign and the offset behind it.
#[derive(Clone, Copy)]
pub struct Sign {
    pub operator: Operator,
    pub next: usize,
}

// The kind of the test that stands at an offset.
pub fn test_kind(s: &[u8], at: usize) -> TestKind
    requires { at < length s.now }
    ensures { (T : Test) (j : ℕ) → TestAt s.now T at j → result ≡ test_kind T }
{
    match s[at] {
        b':' => TestKind::Named,
        b'!' => TestKind::Not,
        b'&' => TestKind::And,
        b'|' => TestKind::Or,
        b'#' => TestKind::Count,
        _ => TestKind::Comparison,
    }
}

// The kind of the path that stands at an offset.
pub fn path_kind(s: &[u8], at: usize) -> PathKind
    requires { at < length s.now }
    ensures { (P : XPath) (j : ℕ) → PathAt s.now P at j → result ≡ path_kind P }
{
    match s[at] {
        b'e' => PathKind::Empty,
        b'l' => PathKind::ToLeft,
        b'r' => PathKind::ToRight,
        b'L' => PathKind::FromLeft,
        b'R' => PathKind::FromRight,
        b'[' => PathKind::Stay,
        b'.' => PathKind::Seq,
        b'+' => PathKind::Union,
        _ => PathKind::Star,
    }
}

// The sign that begins with a byte and goes on with =.
fn longer_sign(b: u8) -> Operator
    ensures { result ≡ longer b }
{
    match b {
        b'<' => Operator::LessEqual,
        b'>' => Operator::GreaterEqual,
        _ => Operator::Unequal,
    }
}

// The sign that is one byte.
fn shorter_sign(b: u8) -> Operator
    ensures { result ≡ shorter b }
{
    match b {
        b'<' => Operator::Less,
        b'>' => Operator::Greater,
        _ => Operator::Equal,
    }
}

// The sign that stands at an offset.
pub fn read_sign(s: &[u8], at: usize) -> Sign
    requires { at < length s.now }
    ensures { (o : Op) (j : ℕ) → SignAt s.now o at j → result ≡ signed o j }
{
    let b = s[at];
    if stands(s, at + 1, b'=') {
        return Sign {
            operator: longer_sign(b),
            next: at + 2,
        };
    }
    Sign {
        operator: shorter_sign(b),
        next: at + 1,
    }
}
