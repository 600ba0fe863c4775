// The label lines of one element's attributes, in digital search trees: whether a label is there already is told by the lines that its own bytes lead to. Nothing is put in order, and no word is moved.
#![tactic(auto)]

ghost use Rattle.std.specs.Prelude.{ℕ, suc, ◌+◌, ◌*◌, ◌≤◌, ◌<◌, List, ◌≡◌, length};
ghost use Rattle.limits.specs.Limits.{document_bytes};
ghost use Rattle.document_lines.specs.Nodes.{Told};
ghost use Rattle.label_trees.specs.Trees.{key_at, held, digit, root_of, Stands, Holds, max_words, heads, Below, Placed, Inserted, Adds, Copied};

use limits::Document;

// The words of the trees: how many lines there are; the roots; three for each line, its offset and its two links. A link is the number of a line, from 1, or 0.
#[derive(Clone, Copy)]
pub struct Trees {
    pub words: usize,
}

impl Trees {
    pub const ROOTS: usize = 16;

    pub const HEADS: usize = 1 + Trees::ROOTS;

    // Where the offset of line q, from 1, and its links stand, less 3 × q.
    const OFFSETS: usize = Trees::HEADS - 3;

    const LINKS: usize = Trees::HEADS - 2;

    // As many attributes as most elements have at most.
    pub const FEW_LINES: usize = 24;

    // Words for so many lines, and for the attributes of any element.
    pub const FEW_WORDS: usize = Trees::HEADS + 3 * Trees::FEW_LINES;

    pub const MAX_WORDS: usize = Trees::HEADS + 3 * Document::MAX_NODES;
}

// Why a line is not added: it is there, or the words are used up.
#[derive(Clone, Copy)]
pub enum NotAdded {
    Twice,
    Full,
}

// Whether the line at an offset is the one between two others. As slices of one length, and not by `starts_with`: most lines that are met differ in their first bytes, which `==` looks at before it calls for the rest.
#[tactic(auto, using(crate::proofs::Keys::stands_two))]
fn same_line(s: &[u8], o: usize, from: usize, to: usize) -> bool
    requires { Stands s.now from to × (o ≤ from) × (length s.now ≤ document_bytes) }
    ensures { Told (key_at s.now o ≡ key_at s.now from) result }
{
    s[from..to] == s[o..o + (to - from)]
}

// The link at which a search for the line between two offsets begins. Labels of one element differ mostly in their first, middle or last byte.
fn first_link(s: &[u8], from: usize, to: usize) -> usize
    requires { Stands s.now from to × (length s.now ≤ document_bytes) }
    ensures { result ≡ 1 + root_of (key_at s.now from) }
{
    let middle = from + (to - from) / 2;
    let sum = s[from] as usize + s[middle] as usize + s[to - 2] as usize;
    1 + sum % Trees::ROOTS
}

// Digit b of the line between two offsets.
fn digit_at(s: &[u8], from: usize, to: usize, b: usize) -> usize
    requires { Stands s.now from to × (length s.now ≤ document_bytes) × (b ≤ max_words) }
    ensures { (result ≡ digit (key_at s.now from) b) × (result < 2) }
{
    let back = 2 + b / 2 % Document::MAX_LABEL;
    let at = from.max(to.saturating_sub(back));
    let shift = b % 2 + 2 * (b / (2 * Document::MAX_LABEL) % 4);
    ((s[at] >> shift) % 2) as usize
}

// Follows the links of a search for the line between two offsets: the link that is free for it, or none if the line is there.
fn find(s: &[u8], from: usize, to: usize, t: &[u32]) -> Option<usize>
    requires { Stands s.now from to × (length s.now ≤ document_bytes) × Holds s.now t.now × Below t.now from × (length t.now ≤ max_words) }
    ensures { Placed s.now t.now from result }
{
    let mut p = first_link(s, from, to);
    let mut b = 0;
    let mut q = t[p] as usize;
    while q != 0 {
        let o = t[Trees::OFFSETS + 3 * q] as usize;
        if same_line(s, o, from, to) {
            return None;
        }
        p = Trees::LINKS + 3 * q + digit_at(s, from, to, b);
        b += 1;
        q = t[p] as usize;
    }
    Some(p)
}

// Forgets all lines.
pub fn clear(t: &mut [u32])
    requires { heads ≤ length t.old }
    ensures long { length t.new ≡ length t.old }
    ensures empty { held t.new ≡ 0 }
    ensures holds { (s : List ℕ) → Holds s t.new }
{
    t[..Trees::HEADS].fill(0);
}

// Writes the next line, and the link that leads to it.
fn insert(t: &mut [u32], p: usize, o: usize)
    requires { (heads + 3 * suc (held t.old) ≤ length t.old) × (length t.old ≤ max_words) × (0 < p) × (p < heads + 3 * held t.old) × (o ≤ document_bytes) }
    ensures { Inserted t.old p o t.new }
{
    let c = t[0] as usize;
    let at = Trees::HEADS + 3 * c;
    t[at] = o as u32;
    t[at + 1] = 0;
    t[at + 2] = 0;
    t[p] = (c + 1) as u32;
    t[0] = (c + 1) as u32;
}

// Adds the line between two offsets, unless it is there or the words are used up.
pub fn add(s: &[u8], from: usize, to: usize, t: &mut [u32]) -> Result<(), NotAdded>
    requires { Stands s.now from to × (length s.now ≤ document_bytes) × Holds s.now t.old × Below t.old from × (length t.old ≤ max_words) }
    ensures { Adds s.now t.old from t.new result }
{
    let Some(p) = find(s, from, to, t) else {
        return Err(NotAdded::Twice);
    };
    let c = t[0] as usize;
    if t.len() < Trees::HEADS + 3 * (c + 1) {
        return Err(NotAdded::Full);
    }
    insert(t, p, from);
    Ok(())
}

// Goes on with more words: these are the first of them.
pub fn copy(from: &[u32], to: &mut [u32])
    requires { (heads ≤ length from.now) × (length from.now ≤ length to.old) }
    ensures { Copied from.now to.old to.new }
{
    to[..from.len()].copy_from_slice(from);
}
