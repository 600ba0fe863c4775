// Ranks as marks: those where one walk ends are marked, and the ends of another are looked up.
ghost use Rattle.std.specs.Prelude.{true, ◌↔◌, ◌≡◌, ℕ, ◌<◌};
ghost use Rattle.layout.specs.Part.{MARK, Space};
ghost use Rattle.layout.specs.Table.{RANK, Room, SmallRanks};
ghost use Rattle.layout.specs.Words.{word};
ghost use Rattle.rank_sets.specs.Ends.{Ended};
ghost use Rattle.rank_sets.specs.Marks.{Clear, MarkedAt, Marked};

use crate::ends::ends_at;
use layout::words::{get, put};
use layout::{Part, Table};

// The rank of node `w` is marked if the walk ends there.
fn mark_rank(p: &mut [u16], n: usize, last: u16, w: usize)
    requires { Space n p.old × SmallRanks n p.old × (w < n) }
    ensures { MarkedAt n last w p.old p.new }
{
    if ends_at(p, n, last, w) {
        let r = get(p, n, Table::RANK, w);
        put(p, n, Part::MARK, r, 1);
    }
}

// The ranks of the nodes where the walk ends are marked.
pub fn mark_ranks(p: &mut [u16], n: usize, last: u16)
    requires { Space n p.old × SmallRanks n p.old × Clear n p.old }
    ensures { Marked n last p.old p.new }
{
    for w in 0..n {
        mark_rank(p, n, last, w);
    }
}

// Whether the walk ends at node `w` and the rank of `w` is marked.
fn marked_at(p: &[u16], n: usize, last: u16, w: usize) -> bool
    requires { Room n p.now × SmallRanks n p.now × (w < n) }
    ensures { (result ≡ true) ↔ (Ended n last p.now w × (word p.now n MARK (word p.now n RANK w) ≡ 1)) }
{
    ends_at(p, n, last, w) && get(p, n, Part::MARK, get(p, n, Table::RANK, w)) == 1
}

// Whether the walk ends at a node whose rank is marked.
pub fn any_marked(p: &[u16], n: usize, last: u16) -> bool
    requires { Room n p.now × SmallRanks n p.now }
    ensures { (result ≡ true) ↔ ((w : ℕ) × (w < n) × Ended n last p.now w × (word p.now n MARK (word p.now n RANK w) ≡ 1)) }
{
    for w in 0..n {
        if marked_at(p, n, last, w) {
            return true;
        }
    }
    false
}
