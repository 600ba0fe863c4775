// The evaluations: the inputs are judged, and where they are accepted the rule is settled in the scratch and its nodes are marked.
#![tactic(auto)]

pub mod by_values;

ghost use Rattle.std.specs.Prelude.{◌≤◌, ◌<◌, ◌≡◌, List, length};
ghost use Rattle.limits.specs.Limits.{document_nodes, scratch_words};
ghost use Rattle.xpath.specs.Syntax.{Test};
ghost use Rattle.document_spec.specs.Library as Library;
ghost use Rattle.document_spec.specs.Verdict.{Accepts};
ghost use Rattle.evaluation_spec.specs.Buffers.{Accepted};
ghost use Rattle.evaluation_spec.specs.Evaluation.{PlainEvaluation, SnippetEvaluation};
ghost use Rattle.table.specs.Links.{Linked};
ghost use Rattle.table.specs.Tabled.{Tabled};
ghost use Rattle.ranks.specs.Ranks.{Written};
ghost use Rattle.amounts.specs.Weighed.{Weighed};
ghost use Rattle.refusals.specs.Refusals.{number, place};
ghost use Rattle.verdicts.specs.Answers.{ground_of};
ghost use Rattle.evaluation.specs.Outcomes.{outcome_of, refused_by, Selection, Evaluated};
ghost use Rattle.evaluation.specs.Steps.{Readied, Finished};

use amounts::rank_amounts;
use driver::settle_rule;
use evaluators::Evaluator;
use limits::Scratch;
use marking::{clear, mark};
use ranks::rank;
use table::build;
use verdicts::{Refusal, judge};

// What an evaluation returns: number, place, the number of selected nodes, and the number of snippets. C reads it.
#[repr(C)]
#[derive(Clone, Copy)]
pub struct Evaluation {
    pub number: u16,
    pub place: usize,
    pub selected: usize,
    pub snippets: usize,
}

// How many nodes are marked, and how many snippets the rule has.
#[derive(Clone, Copy)]
struct Picked {
    selected: usize,
    snippets: usize,
}

// The ranks of the values, and those of the amounts.
fn rank_values(document: &[u8], scratch: &mut [u16], n: usize)
    requires { Tabled document.now n scratch.old }
    ensures { (ns : List Library.Node) → Accepts document.now ns → Linked document.now ns scratch.old → Written document.now ns scratch.old scratch.new × Weighed ns scratch.new }
{
    rank(document, scratch, n);
    rank_amounts(document, scratch, n);
}

// All that the tests of a rule find of the document: its tree, and the ranks of its values and their amounts.
fn ready(document: &[u8], scratch: &mut [u16], n: usize)
    requires { ((ns : List Library.Node) × Accepts document.now ns × (length ns ≡ n)) × (scratch_words n ≤ length scratch.old) }
    ensures { Readied document.now n scratch.old scratch.new }
{
    build(document, scratch, n);
    rank_values(document, scratch, n);
}

// Marks the nodes at which a settled rule holds, and leaves zeros in the scratch. Returns how many nodes are marked.
fn finish(scratch: &mut [u16], n: usize, marks: &mut [u8]) -> usize
    requires { (0 < n) × (n ≤ document_nodes) × (scratch_words n ≤ length scratch.old) × (n ≤ length marks.old) }
    ensures { Finished n scratch.old marks.old result scratch.new marks.new }
{
    let selected = mark(scratch, n, marks);
    let words = Scratch::needed(n);
    clear(scratch, words);
    selected
}

// Marks the nodes at which an accepted rule holds, and leaves zeros in the scratch.
fn select(
    e: Evaluator,
    document: &[u8],
    rule: &[u8],
    scratch: &mut [u16],
    marks: &mut [u8],
    n: usize,
) -> Picked
    requires { (ns : List Library.Node) × (T : Test) × Accepted document.now rule.now (length scratch.old) (length marks.old) ns T × (length ns ≡ n) }
    ensures { Selection e document.now rule.now scratch.old marks.old result.selected result.snippets scratch.new marks.new }
{
    ready(document, scratch, n);
    let snippets = settle_rule(e, document, rule, scratch, n);
    let selected = finish(scratch, n, marks);
    Picked { selected, snippets }
}

// What is returned of a call that is refused.
fn refused(refusal: Refusal) -> Evaluation
    ensures { outcome_of result ≡ refused_by (number (ground_of refusal)) (place (ground_of refusal)) }
{
    Evaluation {
        number: refusal.number(),
        place: refusal.place(),
        selected: 0,
        snippets: 0,
    }
}

// Selects the nodes of a document at which a rule holds. A call that is refused changes no mark and no word.
fn evaluate(
    e: Evaluator,
    document: &[u8],
    rule: &[u8],
    scratch: &mut [u16],
    marks: &mut [u8],
) -> Evaluation
    ensures { Evaluated e document.now rule.now scratch.old marks.old (outcome_of result) scratch.new marks.new }
{
    match judge(document, rule, scratch.len(), marks.len()) {
        Ok(nodes) => {
            let picked = select(e, document, rule, scratch, marks, nodes);
            Evaluation {
                number: 0,
                place: 0,
                selected: picked.selected,
                snippets: picked.snippets,
            }
        }
        Err(refusal) => refused(refusal),
    }
}

// The plain evaluation: paths are followed from every node.
pub fn evaluate_plain(
    document: &[u8],
    rule: &[u8],
    scratch: &mut [u16],
    marks: &mut [u8],
) -> Evaluation
    ensures { PlainEvaluation document.now rule.now scratch.old marks.old (outcome_of result) scratch.new marks.new }
{
    evaluate(Evaluator::Plain, document, rule, scratch, marks)
}

// The snippet evaluation: stretches of the tree, halved by powers of two, settle the equalities, and are counted.
pub fn evaluate_snippets(
    document: &[u8],
    rule: &[u8],
    scratch: &mut [u16],
    marks: &mut [u8],
) -> Evaluation
    ensures { SnippetEvaluation document.now rule.now scratch.old marks.old (outcome_of result) scratch.new marks.new }
{
    evaluate(Evaluator::Snippets, document, rule, scratch, marks)
}
