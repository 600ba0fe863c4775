// What is noted of the compared value of each node, in four columns, so that nodes are compared without reading their lines anew.
ghost use Rattle.std.specs.Prelude.{List, ◌≡◌, ℕ, suc, ◌<◌};
ghost use Rattle.document_spec.specs.Library as Library;
ghost use Rattle.document_spec.specs.Verdict.{Accepts};
ghost use Rattle.document_lines.specs.Entries.{IsEntry};
ghost use Rattle.layout.specs.Table.{Room};
ghost use Rattle.layout.specs.Words.{Wrote};
ghost use Rattle.value_notes.specs.Values.{Inner, Inside};
ghost use Rattle.blanks.specs.Trimmed.{Trimmed};
ghost use Rattle.value_notes.specs.Notes.{note_at, noted, Words, Own, Valued, Marked};

use document_lines::entries::{Entry, Span};
use document_lines::rules::Kind;
use layout::words::{get, put};
use layout::{Table, Values};
use limits::{Document, Scratch};
use texts::Texts;

// If the bytes of a value lie in one span: the two words of the offset where they start, and their number. Of a text also the blanks in front of them and, times `BASE`, those behind them.
// The value of an element with several texts that are not blank has no length, and in the place of the offset stand the first and the last of them.
#[derive(Clone, Copy)]
pub struct Note {
    pub low: usize,
    pub high: usize,
    pub length: usize,
    pub blanks: usize,
}

// More than the blanks at one end of a value.
pub const BASE: usize = Document::MAX_VALUE + 1;

// The note of node `v`.
pub fn get_note(t: &[u16], n: usize, v: usize) -> Note
    requires { (v < n) × Room n t.now }
    ensures { (result ≡ note_at t.now n v) × Words result }
{
    Note {
        low: get(t, n, Values::LOW, v),
        high: get(t, n, Values::HIGH, v),
        length: get(t, n, Values::LENGTH, v),
        blanks: get(t, n, Values::BLANKS, v),
    }
}

// The note of node `v` becomes `x`.
pub fn put_note(t: &mut [u16], n: usize, v: usize, x: Note)
    requires { (v < n) × Room n t.old × Words x }
    ensures { Wrote (noted n v x) t.old t.new }
{
    put(t, n, Values::LOW, v, x.low);
    put(t, n, Values::HIGH, v, x.high);
    put(t, n, Values::LENGTH, v, x.length);
    put(t, n, Values::BLANKS, v, x.blanks);
}

// Of a node that is text or an attribute, with the value `p` and the same without the blanks at its ends.
fn own_note(p: Span, q: Span) -> Note
    requires { (s : List ℕ) × (ns : List Library.Node) × (v : ℕ) × Own s ns v p q }
    ensures { (s : List ℕ) (ns : List Library.Node) (v : ℕ) → Own s ns v p q → Valued s ns v result }
{
    Note {
        low: q.from % Scratch::WORD_VALUES,
        high: q.from / Scratch::WORD_VALUES,
        length: q.to - q.from,
        blanks: (q.from - p.from) + BASE * (p.to - q.to),
    }
}

// Of an element with the texts `y` inside it that are not blank. If this is one text, both have the same value.
fn element_note(t: &[u16], n: usize, y: Texts) -> Note
    requires { (s : List ℕ) × (ns : List Library.Node) × (v : ℕ) × Marked s n (suc v) t.now × Accepts s ns × Inside ns v y.first y.last }
    ensures { (s : List ℕ) (ns : List Library.Node) (v : ℕ) → Marked s n (suc v) t.now → Accepts s ns → Inside ns v y.first y.last → Valued s ns v result }
{
    if y.first == Table::NONE {
        return Note {
            low: 0,
            high: 0,
            length: 0,
            blanks: 0,
        };
    }
    if y.first == y.last {
        return get_note(t, n, y.first);
    }
    Note {
        low: y.first,
        high: y.last,
        length: Table::NONE,
        blanks: 0,
    }
}

// Of node `v` with an entry, its own value without the blanks at its ends, and the texts `y` inside it, where the nodes behind it have their notes.
pub fn note_of(t: &[u16], n: usize, v: usize, e: Entry, q: Span, y: Texts) -> Note
    requires { (s : List ℕ) × (ns : List Library.Node) × Marked s n (suc v) t.now × Accepts s ns × (v < n) × IsEntry s ns v e × Trimmed s e.value q × Inner ns v y.first y.last }
    ensures { (s : List ℕ) (ns : List Library.Node) → Marked s n (suc v) t.now → Accepts s ns → v < n → IsEntry s ns v e → Trimmed s e.value q → Inner ns v y.first y.last → Valued s ns v result }
{
    let k = e.kind;
    match k {
        Kind::Element => element_note(t, n, y),
        Kind::Attribute => own_note(e.value, q),
        Kind::Text => own_note(e.value, q),
    }
}
