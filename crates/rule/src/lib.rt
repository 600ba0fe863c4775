// The rule check: any bytes get the verdict of numbers 5 to 9 of document 01.
#![tactic(auto)]

ghost use Rattle.std.specs.Prelude.{◌≡◌};
ghost use Rattle.rule.specs.Check.{Judged, judged_by, read_refusal};

use limits::Rule;
use rule_readers::readers::read_test;
use rule_readers::tally::NOWHERE;
use tokens::read;
use tokens::read::Tally;

// Why a rule is refused, with the offset.
#[derive(Clone, Copy)]
pub enum Refusal {
    Length,
    Unreadable(usize),
    Nesting(usize),
    Tests(usize),
    Steps(usize),
}

// Where no rule goes on so it is unreadable, and where a part too deep begins its nesting is told.
impl From<read::Refusal> for Refusal {
    ghost from_gives = { λ e r. r ≡ read_refusal e };

    fn from(e: read::Refusal) -> Refusal {
        match e {
            read::Refusal::Stuck(at) => Refusal::Unreadable(at),
            read::Refusal::Deep(at) => Refusal::Nesting(at),
        }
    }
}

// The verdict on a rule that reads, from its tally.
fn within(t: Tally) -> Result<(), Refusal>
    ensures { result ≡ judged_by t }
{
    if t.crowded < NOWHERE {
        return Err(Refusal::Tests(t.crowded));
    }
    if t.heavy < NOWHERE {
        return Err(Refusal::Steps(t.heavy));
    }
    Ok(())
}

// The verdict on a rule: it is accepted, or refused by a ground.
pub fn check(s: &[u8]) -> Result<(), Refusal>
    ensures { Judged s.now result }
{
    if Rule::MAX_BYTES < s.len() {
        return Err(Refusal::Length);
    }
    let t = Tally {
        left: Rule::MAX_TESTS,
        crowded: NOWHERE,
        heavy: NOWHERE,
    };
    let r = read_test(s, 0, 1, 0, t)?;
    if r.next < s.len() {
        return Err(Refusal::Unreadable(r.next));
    }
    within(r.tally)
}
