// Numerals: the key of the amount that bytes spell, read one by one.
#![tactic(auto)]

ghost use Rattle.std.specs.Prelude.{ℕ, suc, ◌+◌, ◌-◌, ◌*◌, ◌^◌, ◌≤◌, ◌<◌, ◌≡◌, true, List, [], ◌∷◌, ◌++◌, length, ltb};
ghost use Rattle.std.proofs.Math.Option.{some, none};
ghost use Rattle.std.proofs.Math.Seq.{slice};
ghost use Rattle.limits.specs.Limits.{numeral_digits, numeral_decimals};
ghost use Rattle.xpath.specs.Reading.{is_digit, given, with_sign, amount_of};
ghost use Rattle.numerals.specs.declared.scan.Part.TheVariants.{Whole, Decimals};
ghost use Rattle.numerals.specs.Fits.{FitsIn};
ghost use Rattle.numerals.specs.Keys.{bias, no_key, key_of};
ghost use Rattle.numerals.specs.Scans.{resumed, resume, resume_if, digit_more, Further};

mod scan;

use limits::Numeral;
pub use scan::{Part, Scan};

// The key of 0: no numeral has so many ten-thousandths.
pub const BIAS: usize = 10_000_000_000_000;

// Stands for no amount, above all keys: a number and no `Option`, since it is kept in the words of columns (fixed memory), and sorted last.
pub const NO_KEY: usize = 2 * BIAS;

// The constants are those that the definitions name.
fn keys_agree()
    ensures value { BIAS ≡ bias }
    ensures no_key_value { NO_KEY ≡ no_key }
{}

// Before the first byte.
pub fn begin() -> Scan
    ensures { (bs : List ℕ) → resume result bs ≡ amount_of bs }
{
    Scan {
        part: Part::Start,
        minus: false,
        count: 0,
        number: 0,
    }
}

fn is_digit(b: u8) -> bool
    ensures { result ≡ is_digit b }
{
    b'0' <= b && b <= b'9'
}

// One digit more, in a part of the numeral.
fn more(c: Scan, part: Part, b: u8) -> Scan
    requires { (is_digit b ≡ true) × (c.count < bias) × (c.number < bias) × FitsIn part (suc c.count) (digit_more c b) }
    ensures { Further part c b result }
{
    Scan {
        part,
        minus: c.minus,
        count: c.count + 1,
        number: c.number * 10 + (b - b'0') as usize,
    }
}

// Behind the point.
fn in_decimals(c: Scan, b: u8) -> Option<Scan>
    requires { c.part ≡ Decimals }
    ensures { (bs : List ℕ) → resume_if result bs ≡ resumed Decimals c (b ∷ bs) }
{
    if is_digit(b) && c.count < Numeral::MAX_DECIMALS {
        return Some(more(c, Part::Decimals, b));
    }
    None
}

// Behind the sign: a digit, or the point behind the last of them.
fn in_whole(c: Scan, b: u8) -> Option<Scan>
    requires { c.part ≡ Whole }
    ensures { (bs : List ℕ) → resume_if result bs ≡ resumed Whole c (b ∷ bs) }
{
    if is_digit(b) {
        if c.count < Numeral::MAX_DIGITS {
            return Some(more(c, Part::Whole, b));
        }
        return None;
    }
    if b == b'.' && 0 < c.count {
        return Some(Scan {
            part: Part::Decimals,
            minus: c.minus,
            count: 0,
            number: c.number,
        });
    }
    None
}

// The first byte: a minus, or the first digit.
fn at_start(b: u8) -> Option<Scan>
    ensures { (bs : List ℕ) → resume_if result bs ≡ amount_of (b ∷ bs) }
{
    let c = Scan {
        part: Part::Whole,
        minus: b == b'-',
        count: 0,
        number: 0,
    };
    if b == b'-' { Some(c) } else { in_whole(c, b) }
}

// One byte more; where there is no scan any more, there is none.
pub fn step(c: Option<Scan>, b: u8) -> Option<Scan>
    ensures { (bs : List ℕ) → resume_if result bs ≡ resume_if c (b ∷ bs) }
{
    let c = c?;
    match c.part {
        Part::Start => at_start(b),
        Part::Whole => in_whole(c, b),
        Part::Decimals => in_decimals(c, b),
    }
}

// The bytes of a slice from one offset to another, as far as they can still make a numeral.
pub fn scan_bytes(s: &[u8], from: usize, to: usize, c: Option<Scan>) -> Option<Scan>
    requires { (from ≤ to) × (to ≤ length s.now) }
    ensures { (bs : List ℕ) → resume_if result bs ≡ resume_if c (slice from to s.now ++ bs) }
{
    let mut r = c?;
    for b in &s[from..to] {
        r = step(Some(r), *b)?;
    }
    Some(r)
}

// The ten-thousandths that digits make, so many of them behind the point.
fn padded(number: usize, decimals: usize) -> usize
    requires { (decimals ≤ numeral_decimals) × (number < 10 ^ (numeral_digits + decimals)) }
    ensures { (result ≡ number * 10 ^ (numeral_decimals - decimals)) × (result < bias) }
{
    number * 10_usize.pow((Numeral::MAX_DECIMALS - decimals) as u32)
}

// The key of the digits of a scan, so many of them behind the point.
fn key_at_end(c: Scan, decimals: usize) -> usize
    requires { (decimals ≤ numeral_decimals) × (c.number < 10 ^ (numeral_digits + decimals)) }
    ensures { result ≡ key_of (with_sign c.minus (given (ltb 0 c.count) (some (c.number * 10 ^ (numeral_decimals - decimals))))) }
{
    if c.count == 0 {
        return NO_KEY;
    }
    let n = padded(c.number, decimals);
    if c.minus { BIAS - n } else { BIAS + n }
}

// The key of what a scan has read, if it has read a numeral.
fn scan_key(c: Scan) -> usize
    ensures { result ≡ key_of (resume c []) }
{
    match c.part {
        Part::Start => NO_KEY,
        Part::Whole => key_at_end(c, 0),
        Part::Decimals => key_at_end(c, c.count),
    }
}

// The same, if there is a scan; where there is none, the bytes are no numeral.
pub fn key(c: Option<Scan>) -> usize
    ensures { result ≡ key_of (resume_if c []) }
{
    match c {
        Some(scan) => scan_key(scan),
        None => NO_KEY,
    }
}

// The key of the bytes of a slice from one offset to another.
pub fn key_of(s: &[u8], from: usize, to: usize) -> usize
    requires { (from ≤ to) × (to ≤ length s.now) }
    ensures { result ≡ key_of (amount_of (slice from to s.now)) }
{
    key(scan_bytes(s, from, to, Some(begin())))
}
