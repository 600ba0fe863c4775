// One entry of the work list: its positions' followers, each taken from the entry's node where its step leads.
ghost use Rattle.std.specs.Prelude.{◌≡◌, true, ◌↔◌, ℕ, ◌<◌};
ghost use Rattle.bits.specs.Sets.{bit};
ghost use Rattle.layout.specs.Part.{NODES, Space};
ghost use Rattle.layout.specs.Table.{COLUMNS, Room};
ghost use Rattle.layout.specs.Words.{word};
ghost use Rattle.reach.specs.Work.{Work, Added, Climbs, Onward, After};

use crate::list::{add, entry_at};
use bits::{meet, union};
use layout::words::get;
use layout::{Part, Table};
use machine::Machine;
use matrices::followers::followers;

// The set `w` if `v` stands in column `c` of node `u`, and else the empty set.
pub fn if_linked(p: &[u16], n: usize, c: usize, u: usize, v: usize, w: u16) -> u16
    requires { (c < COLUMNS) × (u < n) × Room n p.now }
    ensures { (j : ℕ) → (bit result j ≡ true) ↔ ((bit w j ≡ true) × (word p.now n c u ≡ v)) }
{
    if get(p, n, c, u) == v {
        return w;
    }
    0
}

// The steps that lead from node `v` up to its parent `u`, if that is a node: a step up goes from a child on its own side only.
fn upward(p: &[u16], n: usize, m: Machine, v: usize, u: usize) -> u16
    requires { Space n p.now }
    ensures { u < n → (j : ℕ) → (bit result j ≡ true) ↔ Climbs m n p.now v u j }
{
    if n <= u {
        return 0;
    }
    let left = if_linked(p, n, Table::LEFT, u, v, m.leftup);
    let right = if_linked(p, n, Table::RIGHT, u, v, m.rightup);
    union(left, right)
}

// The positions of `f` from node `v`, each where its step leads.
fn spread(p: &mut [u16], n: usize, m: Machine, v: usize, f: u16, len: usize) -> usize
    requires { Work n len p.old × (v < n) }
    ensures { Added (Onward m n p.old v f) n NODES len result p.old p.new }
{
    let left = get(p, n, Table::LEFT, v);
    let right = get(p, n, Table::RIGHT, v);
    let parent = get(p, n, Table::PARENT, v);
    let stays = get(p, n, Part::STAYS, v) as u16;
    let up = upward(p, n, m, v, parent);
    let a = add(p, n, v, meet(f, stays), len);
    let b = add(p, n, left, meet(f, m.left), a);
    let c = add(p, n, right, meet(f, m.right), b);
    add(p, n, parent, meet(f, up), c)
}

// What comes after entry `h`, added to the list.
pub fn expand(p: &mut [u16], n: usize, m: Machine, h: usize, len: usize) -> usize
    requires { Work n len p.old × (h < len) }
    ensures { Added (After m n p.old h) n NODES len result p.old p.new }
{
    let e = entry_at(p, n, h, len);
    let rows = m.rows;
    let f = followers(rows, e.set);
    spread(p, n, m, e.node, f, len)
}
