// The powers one by one: each is found by those that were found before it.
ghost use Rattle.std.specs.Prelude.{◌+◌};
ghost use Rattle.powers.specs.Blocks.{BlockRoom, Fits, Doubled, Found, Passed};

use crate::blocks::{edge, none, twice, upper};
use layout::words::{left, parent};
use machine::Machine;

// The parent of node `y`, with the steps on the side that `y` is on.
fn first_power(p: &mut [u16], n: usize, m: Machine, y: usize)
    requires { Fits n 0 y p.old }
    ensures { Found m n 0 y p.old p.new }
{
    let x = parent(p, n, y);
    if n <= x {
        none(p, n, 0, y);
    } else if left(p, n, x) == y {
        edge(p, n, m, x, y, m.left, m.leftup);
    } else {
        edge(p, n, m, x, y, m.right, m.rightup);
    }
}

// Power `k` + 1 of node `y`: power `k` of the node that is power `k` of `y`.
fn doubled(p: &mut [u16], n: usize, k: usize, y: usize)
    requires { Fits n (k + 1) y p.old }
    ensures { Doubled n k y p.old p.new }
{
    let next = k + 1;
    let h = upper(p, n, k, y);
    if n <= h {
        none(p, n, next, y);
    } else {
        twice(p, n, k, h, y);
    }
}

// Power `k` of node `y`.
fn power(p: &mut [u16], n: usize, m: Machine, k: usize, y: usize)
    requires { Fits n k y p.old }
    ensures { Found m n k y p.old p.new }
{
    if k == 0 {
        first_power(p, n, m, y);
    } else {
        doubled(p, n, k - 1, y);
    }
}

// Power `k` of all nodes.
pub fn pass(p: &mut [u16], n: usize, m: Machine, k: usize)
    requires { BlockRoom n (k + 1) p.old }
    ensures { Passed m n k n p.old p.new }
{
    for y in 0..n {
        power(p, n, m, k, y);
    }
}
