// One pass over the nodes, from the last to the first, that fills the columns of the texts and of the values: children stand behind their parents.
ghost use Rattle.std.specs.Prelude.{List, ℕ, suc, ◌<◌, length};
ghost use Rattle.document_spec.specs.Library as Library;
ghost use Rattle.document_spec.specs.Verdict.{Accepts};
ghost use Rattle.document_spec.specs.Intervals.{End};
ghost use Rattle.table.specs.Tabled.{Tabled};
ghost use Rattle.texts.specs.Texts.{Bounds};
ghost use Rattle.limits.specs.Limits.{word_values};
ghost use Rattle.document_lines.specs.Entries.{IsEntry};
ghost use Rattle.blanks.specs.Trimmed.{Trimmed};
ghost use Rattle.value_notes.specs.Values.{Inner, Next};
ghost use Rattle.value_notes.specs.Notes.{Marked, Seen, Noted};

use crate::notes::{Note, note_of, put_note};
use blanks::trim;
use document_lines::entries::{Entry, Span, read_entry};
use document_lines::rules::Kind;
use layout::words::{left, offset, put, right};
use layout::{Ranking, Table, Values};
use texts::{Texts, join, own, under};

// The texts inside node `v` in the document: those under its left child.
fn inside(t: &[u16], n: usize, v: usize) -> Texts
    requires { ((s : List ℕ) × Marked s n (suc v) t.now) × (v < n) }
    ensures { (s : List ℕ) (ns : List Library.Node) → Marked s n (suc v) t.now → Accepts s ns → Inner ns v result.first result.last }
{
    let l = left(t, n, v);
    under(t, n, l)
}

// The texts under node `v`: its own, those inside it, and those under its right child.
fn gather(t: &[u16], n: usize, v: usize, x: Texts, y: Texts) -> Texts
    requires { ((s : List ℕ) × Marked s n (suc v) t.now) × (v < n) }
    ensures { (s : List ℕ) (ns : List Library.Node) (e : ℕ) → Marked s n (suc v) t.now → Accepts s ns → End ns v e → Bounds ns v (suc v) x.first x.last → Inner ns v y.first y.last → Bounds ns v e result.first result.last }
{
    let r = right(t, n, v);
    let z = under(t, n, r);
    join(join(x, y), z)
}

// What the columns of a node hold: the texts under it, and its value.
#[derive(Clone, Copy)]
pub struct Sight {
    pub texts: Texts,
    pub note: Note,
}

// What they are to hold of node `v`, where those of the nodes behind it are filled; its entry, and its own value without the blanks at its ends, are `e` and `q`.
fn look(t: &[u16], n: usize, v: usize, e: Entry, q: Span) -> Sight
    requires { (s : List ℕ) × (ns : List Library.Node) × Marked s n (suc v) t.now × Accepts s ns × (v < n) × IsEntry s ns v e × Trimmed s e.value q }
    ensures { (s : List ℕ) (ns : List Library.Node) → Marked s n (suc v) t.now → Accepts s ns → v < n → IsEntry s ns v e → Trimmed s e.value q → Seen s ns v result.texts.first result.texts.last result.note }
{
    let y = inside(t, n, v);
    let texts = gather(t, n, v, own(e, q, v), y);
    let note = note_of(t, n, v, e, q, y);
    Sight { texts, note }
}

// The first node from `v` on that has text, where `next` is that of the nodes behind it.
fn first_text(e: Entry, v: usize, next: usize) -> usize
    ensures { (s : List ℕ) (ns : List Library.Node) → v < length ns → IsEntry s ns v e → Next ns (suc v) next → Next ns v result }
{
    let k = e.kind;
    let p = e.value;
    match k {
        Kind::Element => next,
        Kind::Attribute => next,
        Kind::Text => if p.from < p.to { v } else { next },
    }
}

// The columns of node `v`, where those of the nodes behind it are filled and the next text is `next`; the next text of the node before it.
fn mark(s: &[u8], t: &mut [u16], n: usize, v: usize, next: usize) -> usize
    requires { Marked s.now n (suc v) t.old × (v < n) × ((ns : List Library.Node) → Accepts s.now ns → Next ns (suc v) next) × (next < word_values) }
    ensures { Marked s.now n v t.new × Noted n t.old t.new × ((ns : List Library.Node) → Accepts s.now ns → Next ns v result) × (result < word_values) }
{
    let at = offset(t, n, v);
    let e = read_entry(s, at);
    let q = trim(s, e.value);
    let m = look(t, n, v, e, q);
    let x = m.texts;
    put(t, n, Ranking::FIRST_TEXT, v, x.first);
    put(t, n, Ranking::LAST_TEXT, v, x.last);
    put(t, n, Values::NEXT, v, next);
    put_note(t, n, v, m.note);
    first_text(e, v, next)
}

// The columns of all nodes.
pub fn mark_all(s: &[u8], t: &mut [u16], n: usize)
    requires { Tabled s.now n t.old }
    ensures { Marked s.now n 0 t.new × Noted n t.old t.new }
{
    let mut next = Table::NONE;
    for v in (0..n).rev() {
        next = mark(s, t, n, v, next);
    }
}
