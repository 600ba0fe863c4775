// What is told of a path: whether its empty word belongs to it, and which of its steps may come first and last.
ghost use Rattle.std.specs.Prelude.{◌≡◌, ℕ, ◌+◌, ◌<◌};
ghost use Rattle.limits.specs.Limits.{positions};
ghost use Rattle.bits.specs.Sets.{bit, and};
ghost use Rattle.xpath.specs.Syntax.{XPath, empty, one, seq, union, star, Step, size};
ghost use Rattle.path_sets.specs.Scanned.{Sets};

use bits::{insert, union};

// count is the first number behind the path's steps, next the offset behind its bytes.
#[derive(Clone, Copy)]
pub struct Scan {
    pub null: bool,
    pub first: u16,
    pub last: u16,
    pub count: usize,
    pub next: usize,
}

// The set where the flag is up, and no member where it is not.
pub fn given(a: bool, w: u16) -> u16
    ensures { (i : ℕ) → bit result i ≡ and a (bit w i) }
{
    if a { w } else { 0 }
}

pub fn no_step(b: usize, next: usize) -> Scan
    ensures { Sets empty b result × (result.next ≡ next) }
{
    Scan {
        null: true,
        first: 0,
        last: 0,
        count: b,
        next,
    }
}

pub fn one_step(b: usize, next: usize) -> Scan
    requires { b < positions }
    ensures { ((t : Step) → Sets (one t) b result) × (result.next ≡ next) }
{
    let w = insert(0, b as u16);
    Scan {
        null: false,
        first: w,
        last: w,
        count: b + 1,
        next,
    }
}

pub fn in_sequence(p: Scan, q: Scan) -> Scan
    ensures { ((P Q : XPath) (b : ℕ) → Sets P b p → Sets Q (b + size P) q → Sets (seq P Q) b result) × (result.next ≡ q.next) }
{
    Scan {
        null: p.null && q.null,
        first: union(p.first, given(p.null, q.first)),
        last: union(q.last, given(q.null, p.last)),
        count: q.count,
        next: q.next,
    }
}

pub fn either(p: Scan, q: Scan) -> Scan
    ensures { ((P Q : XPath) (b : ℕ) → Sets P b p → Sets Q (b + size P) q → Sets (union P Q) b result) × (result.next ≡ q.next) }
{
    Scan {
        null: p.null || q.null,
        first: union(p.first, q.first),
        last: union(p.last, q.last),
        count: q.count,
        next: q.next,
    }
}

pub fn repeated(p: Scan) -> Scan
    ensures { ((P : XPath) (b : ℕ) → Sets P b p → Sets (star P) b result) × (result.next ≡ p.next) }
{
    Scan {
        null: true,
        first: p.first,
        last: p.last,
        count: p.count,
        next: p.next,
    }
}
