// The tree rules of a line, from the node before it.
ghost use Rattle.std.specs.Prelude.{◌≡◌, List, ◌++◌, ℕ, ◌+◌, ◌≤◌, ◌<◌, ◌^◌, length, drop};
ghost use Rattle.limits.specs.Limits.{document_bytes, depth_digits};
ghost use Rattle.limits.specs.Names.{Name};
ghost use Rattle.document_lines.specs.Nodes.{Told, kind_of, DepthRule, KindRule};
ghost use Rattle.document_spec.specs.Library.{DepthBehind, KindBehind, LabelRule, ValueRule, label_line};

use lexer::read_key;

#[derive(Clone, Copy)]
pub enum Kind {
    Element,
    Attribute,
    Text,
}

// What the next node's rules ask of a node.
#[derive(Clone, Copy)]
pub struct Node {
    pub depth: usize,
    pub kind: Kind,
}

// Whether a node of depth `e` may stand behind one of depth `d` and kind `k`.
fn depth_behind(d: usize, k: Kind, e: usize) -> bool
    requires { d < 10 ^ depth_digits }
    ensures { Told (DepthBehind d (kind_of k) e) result }
{
    0 < e && e <= d + 1 && (e <= d || matches!(k, Kind::Element))
}

// Whether an attribute of depth `e` may stand behind a node of depth `d` and kind `k`.
fn attribute_behind(d: usize, k: Kind, e: usize) -> bool
    requires { d < 10 ^ depth_digits }
    ensures { Told (KindBehind d (kind_of k) e Rattle.document_spec.specs.Library.attribute) result }
{
    match k {
        Kind::Element => e == d + 1,
        Kind::Attribute => e == d,
        Kind::Text => false,
    }
}

// The first node has depth 0, and any other may stand behind the node before it.
pub fn depth_fits(v: usize, before: Node, d: usize) -> bool
    requires { before.depth < 10 ^ depth_digits }
    ensures { Told (DepthRule v before d) result }
{
    if v == 0 {
        d == 0
    } else {
        depth_behind(before.depth, before.kind, d)
    }
}

// The first node is an element, and an attribute follows its element or another attribute.
pub fn kind_fits(v: usize, before: Node, d: usize, k: Kind) -> bool
    requires { before.depth < 10 ^ depth_digits }
    ensures { Told (KindRule v before d k) result }
{
    match k {
        Kind::Element => true,
        Kind::Attribute => v != 0 && attribute_behind(before.depth, before.kind, d),
        Kind::Text => v != 0,
    }
}

// A text has the label `text`. The label line stands at an offset.
pub fn label_fits(s: &[u8], at: usize, k: Kind) -> bool
    requires { at ≤ length s.now }
    ensures { (a q : List ℕ) → Name a → drop at s.now ≡ label_line a ++ q → Told (LabelRule (kind_of k) a) result }
{
    match k {
        Kind::Element | Kind::Attribute => true,
        Kind::Text => read_key(s, at, b"label=text\n").is_some(),
    }
}

// An element's value is empty. The value line stands between two offsets.
pub fn value_fits(k: Kind, at: usize, end: usize) -> bool
    requires { end ≤ document_bytes }
    ensures { (b : List ℕ) → end ≡ at + 7 + length b → Told (ValueRule (kind_of k) b) result }
{
    match k {
        Kind::Element => at < end && end - at == 7,
        Kind::Attribute | Kind::Text => true,
    }
}
