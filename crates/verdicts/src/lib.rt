// The two checks, each answered by the numbers of documents 01 and 02, and the judgements on all inputs of an evaluation.
#![tactic(auto)]

ghost use Rattle.std.specs.Prelude.{◌≤◌, ◌<◌, ◌≡◌};
ghost use Rattle.limits.specs.Limits.{document_nodes};
ghost use Rattle.refusals.specs.Refusals.{number, place};
ghost use Rattle.xpath.specs.Syntax.{Test};
ghost use Rattle.verdicts.specs.declared.Refusal.TheVariants as refusal;
ghost use Rattle.verdicts.specs.Answers.{answer_of, rule_answer_of, ground_of, number_of, place_of, nodes_of};
ghost use Rattle.rule_spec.specs.Verdict as Grammar;
ghost use Rattle.document_spec.specs.Verdict.{Checked};
ghost use Rattle.verdicts.specs.Judging.{JudgesTexts, JudgesBuffers, Judges, Equates, HasNodes, JudgesValues};

use limits::Scratch;
use rule_parts::kinds::{Operator, TestKind, test_kind};
use rule_parts::parted;
use tokens::stands;

// Why a call is refused: a ground of the document or of the rule, too few words of scratch or too few marks, a rule that is no equality between two paths, or a list with a number of no node.
#[derive(Clone, Copy)]
pub enum Refusal {
    Document(document::Refusal),
    Rule(rule::Refusal),
    Words,
    Marks,
    Equality,
    Values,
}

impl From<document::Refusal> for Refusal {
    ghost from_gives = { λ d r. r ≡ refusal.Document d };

    fn from(ground: document::Refusal) -> Refusal {
        Refusal::Document(ground)
    }
}

impl From<rule::Refusal> for Refusal {
    ghost from_gives = { λ d r. r ≡ refusal.Rule d };

    fn from(ground: rule::Refusal) -> Refusal {
        Refusal::Rule(ground)
    }
}

impl Refusal {
    // The number of the ground.
    pub fn number(self) -> u16
        ensures { result ≡ number (ground_of self) }
    {
        match self {
            Refusal::Document(document::Refusal::Length) => 1,
            Refusal::Document(document::Refusal::Form(_)) => 2,
            Refusal::Document(document::Refusal::Count) => 3,
            Refusal::Document(document::Refusal::Tree(_)) => 4,
            Refusal::Document(document::Refusal::Duplicate(_)) => 14,
            Refusal::Rule(rule::Refusal::Length) => 5,
            Refusal::Rule(rule::Refusal::Unreadable(_)) => 6,
            Refusal::Rule(rule::Refusal::Nesting(_)) => 7,
            Refusal::Rule(rule::Refusal::Tests(_)) => 8,
            Refusal::Rule(rule::Refusal::Steps(_)) => 9,
            Refusal::Words => 10,
            Refusal::Marks => 11,
            Refusal::Equality => 23,
            Refusal::Values => 13,
        }
    }

    // Its line in the document, or its offset in the rule; 0 where it has none.
    pub fn place(self) -> usize
        ensures { result ≡ place (ground_of self) }
    {
        match self {
            Refusal::Document(document::Refusal::Count) => 1,
            Refusal::Document(document::Refusal::Form(line)) => line,
            Refusal::Document(document::Refusal::Tree(line)) => line,
            Refusal::Document(document::Refusal::Duplicate(line)) => line,
            Refusal::Rule(rule::Refusal::Unreadable(offset)) => offset,
            Refusal::Rule(rule::Refusal::Nesting(offset)) => offset,
            Refusal::Rule(rule::Refusal::Tests(offset)) => offset,
            Refusal::Rule(rule::Refusal::Steps(offset)) => offset,
            _ => 0,
        }
    }
}

// What the document check returns: number, place and N. C reads it.
#[repr(C)]
#[derive(Clone, Copy)]
pub struct DocumentAnswer {
    pub number: u16,
    pub place: usize,
    pub nodes: usize,
}

fn document_answer(v: Result<usize, document::Refusal>) -> DocumentAnswer
    ensures { result ≡ answer_of v }
{
    match v {
        Ok(n) => DocumentAnswer {
            number: 0,
            place: 0,
            nodes: n,
        },
        Err(ground) => {
            let d = Refusal::from(ground);
            DocumentAnswer {
                number: d.number(),
                place: d.place(),
                nodes: 0,
            }
        }
    }
}

// Judges a document by numbers 1 to 4 and 14.
pub fn check_document(document: &[u8]) -> DocumentAnswer
    ensures { Checked document.now result.number result.place result.nodes }
{
    document_answer(document::check(document))
}

// What the rule check returns: number and place. C reads it.
#[repr(C)]
#[derive(Clone, Copy)]
pub struct RuleAnswer {
    pub number: u16,
    pub place: usize,
}

fn rule_answer(v: Result<(), rule::Refusal>) -> RuleAnswer
    ensures { result ≡ rule_answer_of v }
{
    match v {
        Ok(()) => RuleAnswer {
            number: 0,
            place: 0,
        },
        Err(ground) => {
            let r = Refusal::from(ground);
            RuleAnswer {
                number: r.number(),
                place: r.place(),
            }
        }
    }
}

// Judges a rule by numbers 5 to 9.
pub fn check_rule(rule: &[u8]) -> RuleAnswer
    ensures { Grammar.Checked rule.now result.number result.place }
{
    rule_answer(rule::check(rule))
}

// Judges a document and a rule, in this order. The number of nodes is told.
fn judge_texts(document: &[u8], rule: &[u8]) -> Result<usize, Refusal>
    ensures { JudgesTexts document.now rule.now (number_of result) (place_of result) (nodes_of result) }
{
    let nodes = document::check(document)?;
    rule::check(rule)?;
    Ok(nodes)
}

// Judges the lengths of the two buffers, in this order, for so many nodes.
fn judge_buffers(nodes: usize, words: usize, marks: usize) -> Result<usize, Refusal>
    requires { (0 < nodes) × (nodes ≤ document_nodes) }
    ensures { JudgesBuffers nodes words marks (number_of result) (place_of result) (nodes_of result) }
{
    let needed = Scratch::needed(nodes);
    if words < needed {
        return Err(Refusal::Words);
    }
    if marks < nodes {
        return Err(Refusal::Marks);
    }
    Ok(nodes)
}

// Judges a document, a rule, and the lengths of the two buffers, in this order. The first ground of refusal is told, or the number of nodes.
pub fn judge(document: &[u8], rule: &[u8], words: usize, marks: usize) -> Result<usize, Refusal>
    ensures { Judges document.now rule.now words marks (number_of result) (place_of result) (nodes_of result) }
{
    let nodes = judge_texts(document, rule)?;
    judge_buffers(nodes, words, marks)
}

// Whether an accepted rule is an equality between two paths: a constant would begin with a quote.
fn is_equality(rule: &[u8]) -> bool
    requires { (T : Test) × Grammar.Accepts rule.now T }
    ensures { (T : Test) → Grammar.Accepts rule.now T → Equates T result }
{
    match test_kind(rule, 0) {
        TestKind::Comparison => {
            let m = parted(rule, 0);
            matches!(m.operator, Operator::Equal) && !stands(rule, m.second, b'"')
        }
        _ => false,
    }
}

// Whether a list has numbers of nodes alone.
fn has_nodes(values: &[u16], nodes: usize) -> bool
    ensures { HasNodes values.now nodes result }
{
    values.iter().all(|v| (*v as usize) < nodes)
}

// Judges a call by a list of values. Besides, the rule is to be an equality between two paths, which is told in front of the buffers, and the list to have nodes alone, which is told last.
pub fn judge_values(
    document: &[u8],
    rule: &[u8],
    values: &[u16],
    words: usize,
    marks: usize,
) -> Result<usize, Refusal>
    ensures { JudgesValues document.now rule.now values.now words marks (number_of result) (place_of result) (nodes_of result) }
{
    let nodes = judge_texts(document, rule)?;
    let equality = is_equality(rule);
    if !equality {
        return Err(Refusal::Equality);
    }
    let lent = judge_buffers(nodes, words, marks)?;
    let listed = has_nodes(values, nodes);
    if !listed {
        return Err(Refusal::Values);
    }
    Ok(lent)
}
