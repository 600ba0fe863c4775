// The document check: any bytes get the verdict of numbers 1 to 4 of document 01 and 14 of document 02.
#![tactic(auto)]

mod nodes;

ghost use Rattle.std.specs.Prelude.{◌≡◌, ◌≤◌, ◌<◌, length};
ghost use Rattle.document.specs.Check.{Judged, Cursor, Reached, Room, NodesRead};

use document_lines::rules::{Kind, Node};
use label_trees::{Trees, copy};
use lexer::number_line;
use limits::Document;
use nodes::{Progress, Stop, node};

// The ground of refusal with its line.
#[derive(Clone, Copy)]
pub enum Refusal {
    Length,
    Form(usize),
    Count,
    Tree(usize),
    Duplicate(usize),
}

// Why the nodes are not all read: the ground of refusal, or how far the check is where the words are used up.
#[derive(Clone, Copy)]
enum Halt {
    Refused(Refusal),
    Full(Progress),
}

// The lines of the nodes that are left, and that nothing is behind them. The words hold the labels of the attributes of the element at hand.
fn read_nodes(s: &[u8], n: usize, start: Progress, words: &mut [u32]) -> Result<usize, Halt>
    requires { (start.node ≤ n) × Reached s.now words.old n start × Room words.old }
    ensures nodes_read { NodesRead s.now words.new n result }
    ensures long { length words.new ≡ length words.old }
{
    let mut here = start;
    while here.node < n {
        match node(s, here, words) {
            Ok(next) => here = next,
            Err(Stop::Refused(why)) => return Err(Halt::Refused(why)),
            Err(Stop::Full) => return Err(Halt::Full(here)),
        }
    }
    if here.at < s.len() {
        Err(Halt::Refused(Refusal::Form(4 * n + 2)))
    } else {
        Ok(n)
    }
}

// Goes on with words for as many attributes as an element can have, so that they are never used up.
fn with_more_words(s: &[u8], n: usize, here: Progress, few: &[u32]) -> Result<usize, Refusal>
    requires { (here.node < n) × Reached s.now few.now n here × Room few.now }
    ensures { Judged s.now result }
{
    let mut words = [0u32; Trees::MAX_WORDS];
    copy(few, &mut words);
    match read_nodes(s, n, here, &mut words) {
        Ok(count) => Ok(count),
        Err(Halt::Refused(why)) => Err(why),
        Err(Halt::Full(_)) => unreachable!(),
    }
}

// The nodes' lines from an offset on, and that nothing is behind them. Words for few attributes are enough for most documents, and more take longer to clear than a short document to read.
fn all_nodes(s: &[u8], n: usize, at: usize) -> Result<usize, Refusal>
    requires { Cursor s.now n 1 at }
    ensures { Judged s.now result }
{
    let mut words = [0u32; Trees::FEW_WORDS];
    let first = Progress {
        node: 0,
        at,
        before: Node {
            depth: 0,
            kind: Kind::Element,
        },
    };
    match read_nodes(s, n, first, &mut words) {
        Ok(count) => Ok(count),
        Err(Halt::Refused(why)) => Err(why),
        Err(Halt::Full(here)) => with_more_words(s, n, here, &words),
    }
}

// The number of nodes of an accepted document, or the ground of refusal with its line.
pub fn check(s: &[u8]) -> Result<usize, Refusal>
    ensures { Judged s.now result }
{
    if Document::MAX_BYTES < s.len() {
        return Err(Refusal::Length);
    }
    let count = number_line(s, 0, b"nodes=", Document::MAX_COUNT_DIGITS).ok_or(Refusal::Form(1))?;
    if !(1..=Document::MAX_NODES).contains(&count.value) {
        return Err(Refusal::Count);
    }
    all_nodes(s, count.value, count.next)
}
