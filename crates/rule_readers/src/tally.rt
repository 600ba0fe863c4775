// How the readers keep a tally of the tests, comparisons and counts that they pass, for numbers 8 and 9.
ghost use Rattle.std.specs.Prelude.{◌≡◌};
ghost use Rattle.tokens.specs.Tallies.{begun, weighed};

use limits::Rule;
use tokens::read::Tally;

// No rule has so many bytes that a part begins here. It stands for no place, and not None: so the lower of two places is their min, whether there are any or not.
pub const NOWHERE: usize = Rule::MAX_BYTES;

// A test begins.
pub fn begin(t: Tally, at: usize) -> Tally
    ensures { result ≡ begun t at }
{
    if 0 < t.left {
        return Tally {
            left: t.left - 1,
            ..t
        };
    }
    if t.crowded == NOWHERE {
        return Tally { crowded: at, ..t };
    }
    t
}

// A comparison or a count that began here ends. An inner one ends before, and begins behind.
pub fn weigh(t: Tally, at: usize, steps: usize) -> Tally
    ensures { result ≡ weighed t at steps }
{
    if steps <= Rule::MAX_STEPS {
        return t;
    }
    Tally {
        heavy: t.heavy.min(at),
        ..t
    }
}
