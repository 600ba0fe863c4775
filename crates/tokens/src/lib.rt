// The tokens of a rule, in which no test or path stands: bytes, names, numbers, constants and signs; and what the first byte of a test or path begins.
#![tactic(auto)]

pub mod heads;
pub mod read;

ghost use Rattle.std.specs.Prelude.{◌≡◌, ℕ, ◌+◌, ◌-◌, ◌*◌, ◌≤◌, length, drop};
ghost use Rattle.lists.specs.Text.{Digit};
ghost use Rattle.rule_spec.specs.Machine.{label, byte, goes_on, quoted, operand};
ghost use Rattle.limits.specs.Limits.{constant_bytes, rule_count};
ghost use Rattle.tokens.specs.Readers.{Stands, Stood, NameEnds, NumberRead, Reading, SignRead};
ghost use Rattle.tokens.specs.Numbers.{numbered};

use lexer::{Class, fits};
use limits::{Document, Rule};
use read::{Behind, Refusal, Tally};

// Whether the byte at an offset is x.
pub fn stands(s: &[u8], at: usize, x: u8) -> bool
    requires { at ≤ length s.now }
    ensures { Stood s.now at x result }
{
    at < s.len() && s[at] == x
}

// The byte x, behind which reading goes on.
pub fn closing(s: &[u8], at: usize, x: u8, k: usize, t: Tally) -> Result<Behind, Refusal>
    requires { (at ≤ length s.now) × (k ≤ at) }
    ensures { Reading s.now (byte x) at k t result }
{
    if stands(s, at, x) {
        Ok(Behind {
            next: at + 1,
            steps: k,
            tally: t,
        })
    } else {
        Err(Refusal::Stuck(at))
    }
}

// The end of a name whose first letter stands before an offset.
fn name_end(s: &[u8], at: usize) -> usize
    requires { at ≤ length s.now }
    ensures { NameEnds s.now at result }
{
    for i in at..s.len() {
        if i - at == Document::MAX_LABEL - 1 || !fits(Class::Label, s[i]) {
            return i;
        }
    }
    s.len()
}

pub fn name(s: &[u8], at: usize, k: usize, t: Tally) -> Result<Behind, Refusal>
    requires { (at ≤ length s.now) × (k ≤ at) }
    ensures { Reading s.now label at k t result }
{
    if at == s.len() || !s[at].is_ascii_lowercase() {
        return Err(Refusal::Stuck(at));
    }
    Ok(Behind {
        next: name_end(s, at + 1),
        steps: k,
        tally: t,
    })
}

// The number that digits make, and the offset behind them.
#[derive(Clone, Copy)]
pub struct Digits {
    pub value: usize,
    pub next: usize,
}

// What a number becomes by a digit more.
fn with_digit(n: usize, b: u8) -> usize
    requires { (n ≤ rule_count) × Digit b }
    ensures { result ≡ n * 10 + (b - 48) }
{
    n * 10 + (b - b'0') as usize
}

// Whether a byte is a digit that may come behind those of n: none comes behind a zero, and the number stays one that a count may have.
fn goes_on(n: usize, b: u8) -> bool
    requires { n ≤ rule_count }
    ensures { result ≡ goes_on n b }
{
    fits(Class::Digit, b) && n != 0 && with_digit(n, b) <= Rule::MAX_COUNT
}

// The digits of a count's number from an offset on, as many as it can have; none make 0.
pub fn figures(s: &[u8], at: usize) -> Digits
    requires { at ≤ length s.now }
    ensures { result ≡ numbered at (drop at s.now) }
{
    if at == s.len() {
        return Digits { value: 0, next: at };
    }
    let first = s[at];
    if !fits(Class::Digit, first) {
        return Digits { value: 0, next: at };
    }
    let mut n = with_digit(0, first);
    for i in at + 1..s.len() {
        let b = s[i];
        if !goes_on(n, b) {
            return Digits { value: n, next: i };
        }
        n = with_digit(n, b);
    }
    Digits {
        value: n,
        next: s.len(),
    }
}

// The number of a count, behind which its path is due.
pub fn number(s: &[u8], at: usize, k: usize, t: Tally) -> Result<Behind, Refusal>
    requires { (at ≤ length s.now) × (k ≤ at) }
    ensures { NumberRead s.now at k t result }
{
    let f = figures(s, at);
    if f.next == at {
        return Err(Refusal::Stuck(at));
    }
    Ok(Behind {
        next: f.next,
        steps: k,
        tally: t,
    })
}

// The bytes of a constant behind its opening quote, and the quote that ends it.
fn quoted_bytes(s: &[u8], at: usize, k: usize, t: Tally) -> Result<Behind, Refusal>
    requires { (at ≤ length s.now) × (k ≤ at) }
    ensures { Reading s.now (quoted constant_bytes) at k t result }
{
    for i in at..s.len() {
        let b = s[i];
        if b == b'"' {
            return Ok(Behind {
                next: i + 1,
                steps: k,
                tally: t,
            });
        }
        if i == at + Rule::MAX_CONSTANT || !fits(Class::Text, b) {
            return Err(Refusal::Stuck(i));
        }
    }
    Err(Refusal::Stuck(s.len()))
}

// A constant from its opening quote on, and the bracket that ends the comparison.
pub fn constant(s: &[u8], at: usize, k: usize, t: Tally) -> Result<Behind, Refusal>
    requires { Stands s.now at 34 × (k ≤ at) }
    ensures { (n : ℕ) → Reading s.now (operand n) at k t result }
{
    let c = quoted_bytes(s, at + 1, k, t)?;
    closing(s, c.next, b')', c.steps, c.tally)
}

// A sign ends behind its first byte unless = follows; a lone ! is none.
pub fn read_sign(s: &[u8], at: usize) -> Result<usize, Refusal>
    requires { at ≤ length s.now }
    ensures { SignRead s.now at result }
{
    if at == s.len() {
        return Err(Refusal::Stuck(at));
    }
    let equal = stands(s, at + 1, b'=');
    match s[at] {
        b'=' => Ok(at + 1),
        b'!' => {
            if equal {
                Ok(at + 2)
            } else {
                Err(Refusal::Stuck(at + 1))
            }
        }
        b'<' | b'>' => { if equal { Ok(at + 2) } else { Ok(at + 1) } }
        _ => Err(Refusal::Stuck(at)),
    }
}
