// The first and the last node that has text that is not blank: of one node, of nodes one behind the other, and of those under a node of the binary tree, for which two columns tell them.
// All text under a node but for blanks stands between the two, so nodes with the same two have the same value.
#![tactic(auto)]

ghost use Rattle.std.specs.Prelude.{List, ◌⊎◌, ◌≢◌, ◌≡◌, ℕ, suc, ◌≤◌, ◌<◌, length};
ghost use Rattle.document_spec.specs.Library as Library;
ghost use Rattle.document_lines.specs.Entries.{IsEntry};
ghost use Rattle.layout.specs.Table.{Room};
ghost use Rattle.blanks.specs.Trimmed.{Trimmed};
ghost use Rattle.layout.specs.Words.{NONE};
ghost use Rattle.texts.specs.Texts.{Bounds, Extent, Told};

use document_lines::entries::{Entry, Span};
use document_lines::rules::Kind;
use layout::words::get;
use layout::{Ranking, Table};

// The first and the last of some nodes that have text that is not blank, or no node twice if none has.
// `NONE` and no `Option`: the two are words of two columns (fixed memory).
#[derive(Clone, Copy)]
pub struct Texts {
    pub first: usize,
    pub last: usize,
}

// No text.
fn silence() -> Texts
    ensures { (result.first ≡ NONE) × (result.last ≡ NONE) }
{
    Texts {
        first: Table::NONE,
        last: Table::NONE,
    }
}

// The text of node `v` itself, whose value without the blanks at its ends is the span `q`.
pub fn own(e: Entry, q: Span, v: usize) -> Texts
    ensures { (s : List ℕ) (ns : List Library.Node) → IsEntry s ns v e → Trimmed s e.value q → Bounds ns v (suc v) result.first result.last }
{
    let k = e.kind;
    match k {
        Kind::Element => silence(),
        Kind::Attribute => silence(),
        Kind::Text => {
            if q.from < q.to {
                Texts { first: v, last: v }
            } else {
                silence()
            }
        }
    }
}

// The first of two that is a node.
fn first_of(x: usize, y: usize) -> usize
    ensures { (x ≡ NONE → result ≡ y) × (x ≢ NONE → result ≡ x) }
{
    if x == Table::NONE { y } else { x }
}

// The texts of some nodes and of those behind them.
pub fn join(x: Texts, y: Texts) -> Texts
    ensures { (ns : List Library.Node) (a b c : ℕ) → a ≤ b → b ≤ c → c ≤ NONE → Bounds ns a b x.first x.last → Bounds ns b c y.first y.last → Bounds ns a c result.first result.last }
{
    Texts {
        first: first_of(x.first, y.first),
        last: first_of(y.last, x.last),
    }
}

// The texts under node `v`, which may be no node.
pub fn under(t: &[u16], n: usize, v: usize) -> Texts
    requires { Room n t.now × ((v < n) ⊎ (v ≡ NONE)) }
    ensures { (ns : List Library.Node) (i a b : ℕ) → length ns ≤ NONE → Told ns n i t.now → i ≤ a → Extent ns v a b → Bounds ns a b result.first result.last }
{
    if v == Table::NONE {
        return silence();
    }
    Texts {
        first: get(t, n, Ranking::FIRST_TEXT, v),
        last: get(t, n, Ranking::LAST_TEXT, v),
    }
}
