// How many levels the tree in a comparison's part has: one more than the edges of its longest way down.
#![tactic(auto)]

ghost use Rattle.std.specs.Prelude.{[], ◌∷◌, ◌≡◌, suc, ◌<◌, ◌-◌};
ghost use Rattle.limits.specs.Limits.{word_values};
ghost use Rattle.xpath.specs.Tree.{Tree};
ghost use Rattle.layout.specs.Groups.{LEVEL};
ghost use Rattle.layout.specs.Table.{PARENT, Room};
ghost use Rattle.layout.specs.Words.{cell, word, Wrote};
ghost use Rattle.machine.specs.Shape.{Shape};
ghost use Rattle.levels.specs.Levels.{Levelled};

use layout::Groups;
use layout::words::{get, parent, put};

// Node `v` lies one level below its parent, whose level is known. Its own level is handed back.
fn enter(p: &mut [u16], n: usize, v: usize) -> usize
    requires { Room n p.old × (v < n) × (word p.old n PARENT v < n) × (word p.old n LEVEL (word p.old n PARENT v) < word_values - 1) }
    ensures { (result ≡ suc (word p.old n LEVEL (word p.old n PARENT v))) × Wrote ((cell n LEVEL v, result) ∷ []) p.old p.new }
{
    let u = parent(p, n, v);
    let l = get(p, n, Groups::LEVEL, u) + 1;
    put(p, n, Groups::LEVEL, v, l);
    l
}

// The root is on level 1. A parent has a smaller number than its children, so one pass over the nodes in order does.
pub fn levels(p: &mut [u16], n: usize) -> usize
    requires { ((t : Tree) × Shape t n p.old) × Room n p.old }
    ensures { Levelled n p.old p.new result }
{
    put(p, n, Groups::LEVEL, 0, 1);
    let mut r = 1;
    for v in 1..n {
        r = r.max(enter(p, n, v));
    }
    r
}
