// The place of a constant among the values of the nodes, by their texts or by their amounts. The ranks are in the order of the values, so halving finds it with few values read, and each node is then judged by its rank alone.
#![tactic(auto)]

ghost use Rattle.std.specs.Prelude.{List, ◌≡◌, ◌≤◌, ◌<◌, length};
ghost use Rattle.document_spec.specs.Library as Library;
ghost use Rattle.document_spec.specs.Binary.{compared_of};
ghost use Rattle.document_spec.specs.Verdict.{Accepts};
ghost use Rattle.layout.specs.Table.{COLUMNS, Room};
ghost use Rattle.layout.specs.Words.{word};
ghost use Rattle.blanks.specs.Trimmed.{between};
ghost use Rattle.string_order.specs.Ordered.{Ordered};
ghost use Rattle.value_notes.specs.Notes.{Annotated};
ghost use Rattle.ranks.specs.Ranks.{Ranked};
ghost use Rattle.amounts.specs.Weighed.{Weighed};
ghost use Rattle.constants.specs.Places.{ComparesAt, against, column_of, InRule, Nearest, Told, Placed};

use amounts::keys::node_key;
use document_lines::entries::Span;
use layout::Table;
use layout::words::get;
use std::cmp::Ordering;
use value_order::constant::compare_constant;
use values::{Reading, value_of};

// What values are held against: a text that stands in the rule, or the key of an amount.
#[derive(Clone, Copy)]
pub enum Target {
    Text(Span),
    Amount(usize),
}

// The ranks below `first` belong to smaller values than the constant, those from `behind` on to greater ones, and those between to the constant itself.
#[derive(Clone, Copy)]
pub struct Place {
    pub first: usize,
    pub behind: usize,
}

// The column of the ranks that go with the values.
fn column(c: Target) -> usize
    ensures { result ≡ column_of c }
{
    match c {
        Target::Text(_) => Table::RANK,
        Target::Amount(_) => Table::AMOUNT,
    }
}

// The node with the smallest rank in a column from `low` on, or `n` if there is none: `Nearest` has it so, and no rank is `n`.
fn nearest(t: &[u16], n: usize, column: usize, low: usize) -> usize
    requires { Room n t.now × (column < COLUMNS) }
    ensures { Nearest n (word t.now n column) low result }
{
    let mut best = n;
    let mut least = n;
    for v in (0..n).rev() {
        let r = get(t, n, column, v);
        if low <= r && r < least {
            best = v;
            least = r;
        }
    }
    best
}

// How the text of node `v` compares with one that stands in the rule.
fn compare_text(s: &[u8], rule: &[u8], t: &[u16], n: usize, v: usize, c: Span) -> Ordering
    requires { Annotated s.now n t.now × (v < n) × (c.from ≤ c.to) × (c.to ≤ length rule.now) }
    ensures { (ns : List Library.Node) → Accepts s.now ns → Ordered (compared_of ns v) (between rule.now c) result }
{
    let x: Reading = value_of(t, n, v);
    compare_constant(s, t, n, x, rule, c.from, c.to)
}

// How the value of node `v` compares with the constant, by reading it.
fn compare_value(s: &[u8], rule: &[u8], t: &[u16], n: usize, v: usize, c: Target) -> Ordering
    requires { Annotated s.now n t.now × (v < n) × InRule rule.now c }
    ensures { (ns : List Library.Node) → Accepts s.now ns → ComparesAt (against ns rule.now c) v result }
{
    match c {
        Target::Text(w) => compare_text(s, rule, t, n, v, w),
        Target::Amount(k) => node_key(s, t, n, v).cmp(&k),
    }
}

// The place of the constant.
pub fn find_place(s: &[u8], rule: &[u8], t: &[u16], n: usize, c: Target) -> Place
    requires { Annotated s.now n t.now × InRule rule.now c }
    ensures { (ns : List Library.Node) → Accepts s.now ns → Ranked ns t.now → Weighed ns t.now → Placed (against ns rule.now c) n (word t.now n (column_of c)) result }
{
    let k = column(c);
    let mut lo = 0;
    let mut hi = n;
    while lo < hi {
        let mid = lo + (hi - lo) / 2;
        let v = nearest(t, n, k, mid);
        if v == n {
            hi = mid;
            continue;
        }
        let r = get(t, n, k, v);
        match compare_value(s, rule, t, n, v, c) {
            Ordering::Less => lo = r + 1,
            Ordering::Equal => {
                return Place {
                    first: r,
                    behind: r + 1,
                };
            }
            Ordering::Greater => hi = mid,
        }
    }
    Place {
        first: lo,
        behind: lo,
    }
}

// How a value with rank `r` compares with the constant that has this place.
pub fn compare_rank(r: usize, p: Place) -> Ordering
    ensures { Told p r result }
{
    if r < p.first {
        Ordering::Less
    } else if r < p.behind {
        Ordering::Equal
    } else {
        Ordering::Greater
    }
}
