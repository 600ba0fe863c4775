// The four lines of a node, one after the other: each gives the verdict, or hands the cursor on to the next.
ghost use Rattle.std.specs.Prelude.{◌≡◌, ℕ, ◌≤◌, ◌<◌, length};
ghost use Rattle.limits.specs.Limits.{document_bytes};
ghost use Rattle.document.specs.declared.nodes.Stop.TheVariants.{Refused};
ghost use Rattle.document.specs.Check.{AtKind, AtLabel, AtValue, Reached, Room, Enterable, Entered, Opened, Stepped, UsedUp, NoWords, Valued};

use crate::Refusal;
use document_lines::lines::{read_kind, read_label, read_value};
use document_lines::rules::{Kind, Node, depth_fits, kind_fits, label_fits, value_fits};
use label_trees::{NotAdded, add, clear};
use lexer::number_line;
use limits::Document;

// The next node, where its lines begin, and the node before it.
#[derive(Clone, Copy)]
pub struct Progress {
    pub node: usize,
    pub at: usize,
    pub before: Node,
}

// Why the check is not behind a node: the ground of refusal, or that there are no words for the node's label.
#[derive(Clone, Copy)]
pub enum Stop {
    Refused(Refusal),
    Full,
}

impl From<Refusal> for Stop {
    ghost from_gives = { λ e r. r ≡ Refused e };

    fn from(why: Refusal) -> Stop {
        Stop::Refused(why)
    }
}

// The value line: behind it the node is done.
fn value_step(s: &[u8], at: usize, v: usize, node: Node) -> Result<Progress, Refusal>
    requires { (n : ℕ) × AtValue s.now n v node at }
    ensures { (n : ℕ) → AtValue s.now n v node at → Valued s.now n v node at result }
{
    let next = read_value(s, at).ok_or(Refusal::Form(4 * v + 5))?;
    if !value_fits(node.kind, at, next) {
        return Err(Refusal::Tree(4 * v + 5));
    }
    Ok(Progress {
        node: v + 1,
        at: next,
        before: node,
    })
}

// Enters the label of an attribute among those of its element.
fn enter(s: &[u8], at: usize, end: usize, k: Kind, words: &mut [u32]) -> Result<(), NotAdded>
    requires { Enterable s.now words.old at end k × (length s.now ≤ document_bytes) × (at ≤ document_bytes) × Room words.old }
    ensures entered { Entered s.now words.old at k words.new result }
    ensures long { length words.new ≡ length words.old }
{
    match k {
        Kind::Attribute => add(s, at + 6, end, words),
        Kind::Element | Kind::Text => Ok(()),
    }
}

// The label line: the label of an attribute is entered.
fn label_step(
    s: &[u8],
    at: usize,
    v: usize,
    node: Node,
    words: &mut [u32],
) -> Result<Progress, Stop>
    requires standing { (n : ℕ) × AtLabel s.now words.old n v node at }
    requires room { Room words.old }
    ensures stepped { (n : ℕ) → AtLabel s.now words.old n v node at → Stepped s.now words.new n v ((words.new ≡ words.old) × UsedUp words.new v) result }
    ensures long { length words.new ≡ length words.old }
{
    let end = read_label(s, at).ok_or(Refusal::Form(4 * v + 4))?;
    if !label_fits(s, at, node.kind) {
        return Err(Stop::Refused(Refusal::Tree(4 * v + 4)));
    }
    match enter(s, at, end, node.kind, words) {
        Ok(()) => Ok(value_step(s, end, v, node)?),
        Err(NotAdded::Twice) => Err(Stop::Refused(Refusal::Duplicate(4 * v + 4))),
        Err(NotAdded::Full) => Err(Stop::Full),
    }
}

// Where an element's first attribute begins, the labels of the element before are forgotten.
fn begin_labels(before: Kind, k: Kind, words: &mut [u32])
    requires { Room words.old }
    ensures opened { Opened before k words.old words.new }
    ensures long { length words.new ≡ length words.old }
{
    match (before, k) {
        (Kind::Element | Kind::Text, Kind::Attribute) => clear(words),
        _ => {}
    }
}

// The kind line: the words are made ready for the label.
fn kind_step(
    s: &[u8],
    at: usize,
    here: Progress,
    d: usize,
    words: &mut [u32],
) -> Result<Progress, Stop>
    requires standing { (n : ℕ) × AtKind s.now words.old n here d at }
    requires room { Room words.old }
    ensures stepped { (n : ℕ) → AtKind s.now words.old n here d at → Stepped s.now words.new n here.node (NoWords s.now words.new here) result }
    ensures long { length words.new ≡ length words.old }
{
    let v = here.node;
    let (kind, j) = read_kind(s, at).ok_or(Refusal::Form(4 * v + 3))?;
    if !kind_fits(v, here.before, d, kind) {
        return Err(Stop::Refused(Refusal::Tree(4 * v + 3)));
    }
    begin_labels(here.before.kind, kind, words);
    label_step(s, j, v, Node { depth: d, kind }, words)
}

// The four lines of the next node.
pub fn node(s: &[u8], here: Progress, words: &mut [u32]) -> Result<Progress, Stop>
    requires standing { (n : ℕ) × (here.node < n) × Reached s.now words.old n here }
    requires room { Room words.old }
    ensures stepped { (n : ℕ) → here.node < n → Reached s.now words.old n here → Stepped s.now words.new n here.node (NoWords s.now words.new here) result }
    ensures long { length words.new ≡ length words.old }
{
    let v = here.node;
    let line = number_line(s, here.at, b"depth=", Document::MAX_DEPTH_DIGITS);
    let depth = line.ok_or(Refusal::Form(4 * v + 2))?;
    if !depth_fits(v, here.before, depth.value) {
        return Err(Stop::Refused(Refusal::Tree(4 * v + 2)));
    }
    kind_step(s, depth.next, here, depth.value, words)
}
