// Readers of one field of a line, at an offset of the document.
#![tactic(auto)]

mod blocks;

ghost use Rattle.std.specs.Prelude.{◌≡◌, ℕ, ◌+◌, ◌≤◌, ◌<◌, length, get_or};
ghost use Rattle.limits.specs.Limits.{count_digits};
ghost use Rattle.lexer.specs.Reading.{Ended, in_class, Run, Digits, zero_led, Numbered, Behind, NumberedLine};
ghost use Rattle.lists.specs.Numerals.{reading};
ghost use Rattle.std.proofs.Math.Seq.{slice};

use blocks::pass;

// A number and the offset behind its line.
#[derive(Clone, Copy)]
pub struct Number {
    pub value: usize,
    pub next: usize,
}

// The bytes that a field may have.
#[derive(Clone, Copy)]
pub enum Class {
    Digit,
    Label,
    Text,
}

// Whether a byte belongs to a class.
pub fn fits(k: Class, b: u8) -> bool
    ensures { result ≡ in_class k b }
{
    match k {
        Class::Digit => matches!(b, b'0'..=b'9'),
        Class::Label => matches!(b, b'-' | b'0'..=b'9' | b'a'..=b'z'),
        Class::Text => matches!(b, b' '..=b'~'),
    }
}

// Bytes of a class from an offset on, at most so many, and the LF that ends their line: the offset behind it.
pub fn run(s: &[u8], at: usize, k: Class, most: usize) -> Option<usize>
    requires { at ≤ length s.now }
    ensures { Ended (Run k most) s.now at result }
{
    for i in pass(s, at, k, most)..s.len() {
        let b = s[i];
        if b == b'\n' {
            return Some(i + 1);
        }
        if i - at == most || !fits(k, b) {
            return None;
        }
    }
    None
}

// The number that digits make.
fn value(s: &[u8], at: usize, end: usize) -> usize
    requires { Digits s.now at end }
    ensures { result ≡ reading (slice at end s.now) }
{
    let mut n = 0;
    for b in &s[at..end] {
        n = n * 10 + usize::from(*b - b'0');
    }
    n
}

// Whether a run of bytes begins with a zero and goes on.
fn zero_led(s: &[u8], at: usize, end: usize) -> bool
    requires { (at < end) × (end ≤ length s.now) }
    ensures { result ≡ zero_led s.now at end }
{
    at + 1 < end && s[at] == b'0'
}

// A numeral of at most so many digits, and the LF that ends its line.
pub fn read_number(s: &[u8], at: usize, most: usize) -> Option<Number>
    requires { (at ≤ length s.now) × (0 < most) × (most ≤ count_digits) }
    ensures { Numbered most s.now at result }
{
    let next = run(s, at, Class::Digit, most)?;
    let end = next - 1;
    if end == at || zero_led(s, at, end) {
        return None;
    }
    Some(Number {
        value: value(s, at, end),
        next,
    })
}

// The bytes of a key at an offset: the offset behind them.
pub fn read_key(s: &[u8], at: usize, key: &[u8]) -> Option<usize>
    requires { at ≤ length s.now }
    ensures { Ended (λ l. l ≡ key.now) s.now at result }
{
    if s[at..].starts_with(key) {
        Some(at + key.len())
    } else {
        None
    }
}

// A line that is a key and then a run of bytes of a class: the offset behind it.
pub fn run_line(s: &[u8], at: usize, key: &[u8], k: Class, most: usize) -> Option<usize>
    requires { at ≤ length s.now }
    ensures { Ended (Behind key.now (Run k most)) s.now at result }
{
    let i = read_key(s, at, key)?;
    run(s, i, k, most)
}

// A line that is a key and then a numeral.
pub fn number_line(s: &[u8], at: usize, key: &[u8], most: usize) -> Option<Number>
    requires { (at ≤ length s.now) × (0 < most) × (most ≤ count_digits) }
    ensures { NumberedLine key.now most s.now at result }
{
    let i = read_key(s, at, key)?;
    read_number(s, i, most)
}
