// What is handed back when the tests of a rule are settled: the marks, and a scratch of zeros.
#![tactic(auto)]

ghost use Rattle.std.specs.Prelude.{◌≡◌, ◌≤◌, length, take, drop, replicate};
ghost use Rattle.layout.specs.Table.{Room};
ghost use Rattle.marking.specs.Marking.{Marked};

use test_bits::holds;

// Each of the first `n` marks tells whether test 0, the rule itself, holds at its node. Returns at how many nodes it holds.
pub fn mark(t: &[u16], n: usize, marks: &mut [u8]) -> usize
    requires { Room n t.now × (n ≤ length marks.old) }
    ensures { Marked n t.now marks.old marks.new result }
{
    let mut count = 0;
    for (v, mark) in marks[..n].iter_mut().enumerate() {
        let h = holds(t, n, 0, v);
        *mark = u8::from(h);
        count += usize::from(h);
    }
    count
}

// The first `m` words become 0. All behind them stays.
pub fn clear(t: &mut [u16], m: usize)
    requires { m ≤ length t.old }
    ensures { (take m t.new ≡ replicate m 0) × (drop m t.new ≡ drop m t.old) }
{
    t[..m].fill(0);
}
