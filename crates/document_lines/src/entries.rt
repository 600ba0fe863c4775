// Where the fields of a node of an accepted document lie.
ghost use Rattle.std.specs.Prelude.{List, ℕ};
ghost use Rattle.document_spec.specs.Library as Library;
ghost use Rattle.document_spec.specs.Verdict.{Accepts};
ghost use Rattle.document_lines.specs.Entries.{Start, Stands, IsEntry};

use crate::lines::{read_kind, read_label, read_value};
use crate::rules::Kind;
use lexer::number_line;
use limits::Document;

// The bytes from one offset up to another.
#[derive(Clone, Copy)]
pub struct Span {
    pub from: usize,
    pub to: usize,
}

// A node's depth and kind, where its label and its value lie, and the offset behind its lines.
#[derive(Clone, Copy)]
pub struct Entry {
    pub depth: usize,
    pub kind: Kind,
    pub label: Span,
    pub value: Span,
    pub next: usize,
}

// The offset of the first node's lines: an accepted document begins with a count.
pub fn first_entry(s: &[u8]) -> usize
    requires { (ns : List Library.Node) × Accepts s.now ns }
    ensures { (ns : List Library.Node) → Accepts s.now ns → Start s.now ns result }
{
    number_line(s, 0, b"nodes=", Document::MAX_COUNT_DIGITS)
        .unwrap()
        .next
}

// The entry of the node whose lines stand at an offset: in an accepted document each of them can be read.
pub fn read_entry(s: &[u8], at: usize) -> Entry
    requires { (ns : List Library.Node) × (v : ℕ) × Stands s.now ns v at }
    ensures { (ns : List Library.Node) (v : ℕ) → Stands s.now ns v at → IsEntry s.now ns v result }
{
    let depth = number_line(s, at, b"depth=", Document::MAX_DEPTH_DIGITS).unwrap();
    let (kind, j) = read_kind(s, depth.next).unwrap();
    let m = read_label(s, j).unwrap();
    let next = read_value(s, m).unwrap();
    Entry {
        depth: depth.value,
        kind,
        label: Span {
            from: j + 6,
            to: m - 1,
        },
        value: Span {
            from: m + 6,
            to: next - 1,
        },
        next,
    }
}
