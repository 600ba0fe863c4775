// The readers of tests and paths call each other, and what is left of the rule falls.
// Each is given the offset, the nesting, the steps of the comparison or count so far, and the tally.
ghost use Rattle.rule_spec.specs.Machine.{test, path, signed, operand};
ghost use Rattle.tokens.specs.Readers.{Reading};
ghost use Rattle.rule_readers.specs.Calls.{Due, Opened};

use crate::tally::{begin, weigh};
use tokens::heads::{PathHead, TestHead, path_head, test_head};
use tokens::read::{Behind, Refusal, Tally};
use tokens::{closing, constant, name, number, read_sign, stands};

#[cycle(readers)]
pub fn read_test(s: &[u8], at: usize, n: usize, k: usize, t: Tally) -> Result<Behind, Refusal>
    requires { Due s.now at n k }
    ensures { Reading s.now (test n) at k t result }
{
    let h = test_head(s, at, n)?;
    let u = begin(t, at);
    match h {
        TestHead::Name => name(s, at + 1, k, u),
        TestHead::Not => read_test(s, at + 1, n + 1, k, u),
        TestHead::TwoTests => {
            let r = read_test(s, at + 1, n + 1, k, u)?;
            read_test(s, r.next, n + 1, r.steps, r.tally)
        }
        TestHead::Comparison => comparison(s, at, n, k, t),
        TestHead::Count => count(s, at, n, k, t),
    }
}

// A comparison from its opening bracket on; its steps are counted from 0.
#[cycle(readers)]
fn comparison(s: &[u8], at: usize, n: usize, k: usize, t: Tally) -> Result<Behind, Refusal>
    requires { Opened s.now 40 at n k }
    ensures { Reading s.now (test n) at k t result }
{
    let p = read_path(s, at + 1, n + 1, 0, begin(t, at))?;
    let q = signed_operand(s, p.next, n + 1, p.steps, p.tally)?;
    Ok(Behind {
        next: q.next,
        steps: k,
        tally: weigh(q.tally, at, q.steps),
    })
}

// A count from its # on; its steps are counted from 0.
#[cycle(readers)]
fn count(s: &[u8], at: usize, n: usize, k: usize, t: Tally) -> Result<Behind, Refusal>
    requires { Opened s.now 35 at n k }
    ensures { Reading s.now (test n) at k t result }
{
    let d = number(s, at + 1, 0, begin(t, at))?;
    let p = read_path(s, d.next, n + 1, d.steps, d.tally)?;
    Ok(Behind {
        next: p.next,
        steps: k,
        tally: weigh(p.tally, at, p.steps),
    })
}

#[cycle(readers)]
fn signed_operand(s: &[u8], at: usize, n: usize, k: usize, t: Tally) -> Result<Behind, Refusal>
    requires { Due s.now at n k }
    ensures { Reading s.now (signed n) at k t result }
{
    let i = read_sign(s, at)?;
    second_operand(s, i, n, k, t)
}

// A path or a constant, and the bracket that ends the comparison.
#[cycle(readers)]
fn second_operand(s: &[u8], at: usize, n: usize, k: usize, t: Tally) -> Result<Behind, Refusal>
    requires { Due s.now at n k }
    ensures { Reading s.now (operand n) at k t result }
{
    if stands(s, at, b'"') {
        return constant(s, at, k, t);
    }
    let p = read_path(s, at, n, k, t)?;
    closing(s, p.next, b')', p.steps, p.tally)
}

#[cycle(readers)]
pub fn read_path(s: &[u8], at: usize, n: usize, k: usize, t: Tally) -> Result<Behind, Refusal>
    requires { Due s.now at n k }
    ensures { Reading s.now (path n) at k t result }
{
    match path_head(s, at, n)? {
        PathHead::Empty => Ok(Behind {
            next: at + 1,
            steps: k,
            tally: t,
        }),
        PathHead::Step => Ok(Behind {
            next: at + 1,
            steps: k + 1,
            tally: t,
        }),
        PathHead::Bracket => {
            let r = read_test(s, at + 1, n + 1, k + 1, t)?;
            closing(s, r.next, b']', r.steps, r.tally)
        }
        PathHead::TwoPaths => {
            let r = read_path(s, at + 1, n + 1, k, t)?;
            read_path(s, r.next, n + 1, r.steps, r.tally)
        }
        PathHead::Star => read_path(s, at + 1, n + 1, k, t),
    }
}
