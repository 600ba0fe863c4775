// Binary lifting along the tree, by the powers of two: the node so many edges above a node, and sets of positions carried along the stretch between the two.
#![tactic(auto)]

mod hops;

ghost use Rattle.std.specs.Prelude.{◌≡◌, ℕ};
ghost use Rattle.xpath.specs.Syntax.{XPath};
ghost use Rattle.xpath.specs.Tree.{Tree, Down};
ghost use Rattle.lifting.specs.Ladder.{Lifts, Ladder, Stretch};

use hops::first_hop;
use layout::Blocks;
use layout::places::{block_at, loop_at};
use matrices::before;

// The node `len` above node `y`.
pub fn above(p: &[u16], n: usize, b: usize, y: usize, len: usize) -> usize
    requires { Stretch n b y len p.now }
    ensures { (P R : XPath) (t : Tree) (x : ℕ) → Ladder P R t n b p.now → Down t x y len → result ≡ x }
{
    if len == 0 {
        return y;
    }
    let h = first_hop(p, n, b, y, len);
    above(p, n, b, h.over, h.rest)
}

// The positions that at the node `len` above `y` come to a member of `set` at `y`: hop by hop, and at the top by its loops.
pub fn lift(p: &[u16], n: usize, b: usize, y: usize, len: usize, set: u16) -> u16
    requires { Stretch n b y len p.now }
    ensures { (P R : XPath) (t : Tree) (x : ℕ) → Ladder P R t n b p.now → Down t x y len → Lifts P R t x y set result }
{
    if len == 0 {
        return before(p, loop_at(n, y), set);
    }
    let h = first_hop(p, n, b, y, len);
    let w = before(p, block_at(n, h.exponent, y) + Blocks::DOWN, set);
    lift(p, n, b, h.over, h.rest, w)
}

// The positions that at `y` come to a member of `set` at the node `len` above `y`: by the loops at the top, and then hop by hop down to `y`.
pub fn lower(p: &[u16], n: usize, b: usize, y: usize, len: usize, set: u16) -> u16
    requires { Stretch n b y len p.now }
    ensures { (P R : XPath) (t : Tree) (x : ℕ) → Ladder P R t n b p.now → Down t x y len → Lifts P R t y x set result }
{
    if len == 0 {
        return before(p, loop_at(n, y), set);
    }
    let h = first_hop(p, n, b, y, len);
    let w = lower(p, n, b, h.over, h.rest, set);
    before(p, block_at(n, h.exponent, y) + Blocks::UP, w)
}
