// The kind, label and value lines of a node, at an offset.
ghost use Rattle.std.specs.Prelude.{◌≤◌, length};
ghost use Rattle.lexer.specs.Reading.{Ended};
ghost use Rattle.document_lines.specs.Nodes.{KindRead, IsLabel, IsValue};

use crate::rules::Kind;
use lexer::{Class, read_key, run_line};
use limits::Document;

// A kind and the offset behind its line. The key is read once: the byte behind it tells the kind, and the LF behind that ends the line.
pub fn read_kind(s: &[u8], at: usize) -> Option<(Kind, usize)>
    requires { at ≤ length s.now }
    ensures { KindRead s.now at result }
{
    let j = read_key(s, at, b"kind=")?;
    if s.len() - j < 2 || s[j + 1] != b'\n' {
        return None;
    }
    let kind = match s[j] {
        b'e' => Kind::Element,
        b'a' => Kind::Attribute,
        b't' => Kind::Text,
        _ => return None,
    };
    Some((kind, j + 2))
}

// A label is a run of name bytes that begins with a letter: the offset behind its line.
pub fn read_label(s: &[u8], at: usize) -> Option<usize>
    requires { at ≤ length s.now }
    ensures { Ended IsLabel s.now at result }
{
    let next = run_line(s, at, b"label=", Class::Label, Document::MAX_LABEL)?;
    match s[at + 6] {
        b'a'..=b'z' => Some(next),
        _ => None,
    }
}

// The offset behind a value line.
pub fn read_value(s: &[u8], at: usize) -> Option<usize>
    requires { at ≤ length s.now }
    ensures { Ended IsValue s.now at result }
{
    run_line(s, at, b"value=", Class::Text, Document::MAX_VALUE)
}
