// A constant: backwards from the hits.
ghost use Rattle.std.specs.Prelude.{ℕ, ◌<◌};
ghost use Rattle.plain.specs.Plain.{Answered};
ghost use Rattle.reach.specs.Work.{Seen, Work, Added};
ghost use Rattle.layout.specs.Part.{NODES, Space};
ghost use Rattle.retracing.specs.Backward.{LinkedBothWays, Closed, Ends};
ghost use Rattle.backward.specs.Constants.{IsHit, HitAt};

use bits::has;
use layout::Part;
use layout::words::get;
use machine::Machine;
use plain::answer;
use retracing::spread::spread;

// What ends at node `w`, if that is a hit.
fn spread_hit(p: &mut [u16], n: usize, m: Machine, w: usize, len: usize) -> usize
    requires { Work n len p.old × LinkedBothWays n p.old × Closed m n p.old × (w < n) }
    ensures { Added (Ends m n p.old (HitAt p.old n w)) n NODES len result p.old p.new }
{
    if get(p, n, Part::HIT, w) == 1 {
        return spread(p, n, m, w, m.last, len);
    }
    len
}

// What ends at a hit.
pub fn spread_hits(p: &mut [u16], n: usize, m: Machine)
    requires { Work n 0 p.old × LinkedBothWays n p.old }
    ensures { (len : ℕ) × Added (Ends m n p.old (IsHit p.old n)) n NODES 0 len p.old p.new }
{
    let mut len = 0;
    for w in 0..n {
        len = spread_hit(p, n, m, w, len);
    }
}

// The answer at each node: whether the first path's start is seen there.
pub fn answer_seen(p: &mut [u16], n: usize)
    requires { Space n p.old }
    ensures { Answered n (λ v. Seen p.old n v 0) p.old p.new }
{
    for v in 0..n {
        let seen = get(p, n, Part::SEEN, v);
        answer(p, n, v, has(seen as u16, 0));
    }
}
