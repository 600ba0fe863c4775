// What C and Rust call: numbers pass as themselves, and a slice as a pointer and a length.
#![tactic(auto)]

ghost use Rattle.evaluation.specs.Outcomes.{outcome_of};
ghost use Rattle.rule_spec.specs.Verdict as Grammar;
ghost use Rattle.document_spec.specs.Verdict.{Checked};
ghost use Rattle.evaluation_spec.specs.Evaluation.{PlainEvaluation, SnippetEvaluation};
ghost use Rattle.evaluation_spec.specs.Values.{ValuesEvaluation};

use evaluation::Evaluation;
use verdicts::{DocumentAnswer, RuleAnswer};

// Judges a document by numbers 1 to 4 and 14.
#[unsafe(no_mangle)]
pub extern "C" fn yurzhoad_check_document(document: &[u8]) -> DocumentAnswer
    ensures { Checked document.now result.number result.place result.nodes }
{
    verdicts::check_document(document)
}

// Judges a rule by numbers 5 to 9.
#[unsafe(no_mangle)]
pub extern "C" fn yurzhoad_check_rule(rule: &[u8]) -> RuleAnswer
    ensures { Grammar.Checked rule.now result.number result.place }
{
    verdicts::check_rule(rule)
}

// Marks the nodes of a document at which a rule holds, or refuses the call by numbers 1 to 11 and 14.
#[unsafe(no_mangle)]
pub extern "C" fn yurzhoad_evaluate_plain(
    document: &[u8],
    rule: &[u8],
    scratch: &mut [u16],
    marks: &mut [u8],
) -> Evaluation
    ensures { PlainEvaluation document.now rule.now scratch.old marks.old (outcome_of result) scratch.new marks.new }
{
    evaluation::evaluate_plain(document, rule, scratch, marks)
}

// The same by snippets, which it counts.
#[unsafe(no_mangle)]
pub extern "C" fn yurzhoad_evaluate_snippets(
    document: &[u8],
    rule: &[u8],
    scratch: &mut [u16],
    marks: &mut [u8],
) -> Evaluation
    ensures { SnippetEvaluation document.now rule.now scratch.old marks.old (outcome_of result) scratch.new marks.new }
{
    evaluation::evaluate_snippets(document, rule, scratch, marks)
}

// The same for a rule that is an equality between two paths, by the values of the nodes in a list alone; also refused by number 23, and by number 13.
#[unsafe(no_mangle)]
pub extern "C" fn yurzhoad_evaluate_values(
    document: &[u8],
    rule: &[u8],
    values: &[u16],
    scratch: &mut [u16],
    marks: &mut [u8],
) -> Evaluation
    ensures { ValuesEvaluation document.now rule.now values.now scratch.old marks.old (outcome_of result) scratch.new marks.new }
{
    evaluation::by_values::evaluate_values(document, rule, values, scratch, marks)
}
