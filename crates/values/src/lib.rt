// Compared values of nodes of an accepted document, read where they stand, by the notes in the table.
#![tactic(auto)]

ghost use Rattle.std.specs.Prelude.{List, ℕ, ◌≤◌, ◌<◌};
ghost use Rattle.document_spec.specs.Library as Library;
ghost use Rattle.document_spec.specs.Verdict.{Accepts};
ghost use Rattle.value_notes.specs.Notes.{Annotated};
ghost use Rattle.values.specs.Comes.{Comes, Opens, Further, Filled};

use layout::words::get;
use layout::{Table, Values};
use limits::Scratch;
use value_notes::notes::{BASE, Note, get_note};

// What is still to come of a value: the bytes from one offset up to another, and then, if `node` is not yet `last`, the texts behind `node` up to `last`.
#[derive(Clone, Copy)]
pub struct Reading {
    pub from: usize,
    pub to: usize,
    pub node: usize,
    pub last: usize,
}

// The beginning of the compared value of node `v`.
pub fn value_of(t: &[u16], n: usize, v: usize) -> Reading
    requires { ((s : List ℕ) × Annotated s n t.now) × (v < n) }
    ensures { (s : List ℕ) (ns : List Library.Node) → Annotated s n t.now → Accepts s ns → Opens s ns v result }
{
    let x: Note = get_note(t, n, v);
    if x.length == Table::NONE {
        let y: Note = get_note(t, n, x.low);
        let from = y.low + Scratch::WORD_VALUES * y.high;
        return Reading {
            from,
            to: from + y.length + y.blanks / BASE,
            node: x.low,
            last: x.high,
        };
    }
    let from = x.low + Scratch::WORD_VALUES * x.high;
    Reading {
        from,
        to: from + x.length,
        node: Table::NONE,
        last: Table::NONE,
    }
}

// The next text, where the bytes at hand are used up: with its blanks, but for those at the end of the last one.
fn onward(t: &[u16], n: usize, c: Reading) -> Reading
    requires { ((s : List ℕ) × (ns : List Library.Node) × (bs : List ℕ) × Annotated s n t.now × Accepts s ns × Comes s ns c bs) × (c.to ≤ c.from) × (c.node < c.last) }
    ensures { (s : List ℕ) (ns : List Library.Node) (bs : List ℕ) → Annotated s n t.now → Accepts s ns → Comes s ns c bs → Further s ns c bs result }
{
    let u = get(t, n, Values::NEXT, c.node);
    let x: Note = get_note(t, n, u);
    let start = x.low + Scratch::WORD_VALUES * x.high;
    let at_end = x.blanks / BASE;
    let mut behind = 0;
    if u != c.last {
        behind = at_end;
    }
    Reading {
        from: start - x.blanks % BASE,
        to: start + x.length + behind,
        node: u,
        last: c.last,
    }
}

// The same, with a byte at hand if one is left.
pub fn refill(t: &[u16], n: usize, c: Reading) -> Reading
    requires { (s : List ℕ) × (ns : List Library.Node) × (bs : List ℕ) × Annotated s n t.now × Accepts s ns × Comes s ns c bs }
    ensures { (s : List ℕ) (ns : List Library.Node) (bs : List ℕ) → Annotated s n t.now → Accepts s ns → Comes s ns c bs → Filled s ns c bs result }
{
    if c.from < c.to || c.node >= c.last {
        return c;
    }
    onward(t, n, c)
}
