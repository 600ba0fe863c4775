// The evaluation of one equality by a list of its values: a list of nodes stands for the values of these nodes.
ghost use Rattle.std.specs.Prelude.{◌≡◌, List, length};
ghost use Rattle.xpath.specs.Syntax.{XPath};
ghost use Rattle.document_spec.specs.Library as Library;
ghost use Rattle.evaluation_spec.specs.Values.{ValuesAccepted, ValuesEvaluation};
ghost use Rattle.evaluation.specs.Outcomes.{outcome_of, ValuesSelection};

use crate::{Evaluation, Picked, finish, ready, refused};
use driver::by_values::settle_values;
use verdicts::judge_values;

// Marks the nodes at which the values in the list settle an accepted equality, and leaves zeros in the scratch.
fn select_values(
    document: &[u8],
    rule: &[u8],
    values: &[u16],
    scratch: &mut [u16],
    marks: &mut [u8],
    n: usize,
) -> Picked
    requires { (ns : List Library.Node) × (P R : XPath) × ValuesAccepted document.now rule.now values.now (length scratch.old) (length marks.old) ns P R × (length ns ≡ n) }
    ensures { ValuesSelection document.now rule.now values.now scratch.old marks.old result.selected result.snippets scratch.new marks.new }
{
    ready(document, scratch, n);
    let snippets = settle_values(document, rule, scratch, n, values);
    let selected = finish(scratch, n, marks);
    Picked { selected, snippets }
}

// What the values in the list yield for the rule, an equality between two paths, is counted, and the nodes at which it settles the rule are marked.
// The equalities nested in the rule are settled by all their values. A call that is refused changes no mark and no word.
pub fn evaluate_values(
    document: &[u8],
    rule: &[u8],
    values: &[u16],
    scratch: &mut [u16],
    marks: &mut [u8],
) -> Evaluation
    ensures { ValuesEvaluation document.now rule.now values.now scratch.old marks.old (outcome_of result) scratch.new marks.new }
{
    match judge_values(document, rule, values, scratch.len(), marks.len()) {
        Ok(nodes) => {
            let picked = select_values(document, rule, values, scratch, marks, nodes);
            Evaluation {
                number: 0,
                place: 0,
                selected: picked.selected,
                snippets: picked.snippets,
            }
        }
        Err(refusal) => refused(refusal),
    }
}
