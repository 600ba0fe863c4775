// What is noted of the entries that are new: a word in one of two columns for the start of the first path, in the other for that of the second.
ghost use Rattle.std.specs.Prelude.{◌≤◌, ◌<◌};
ghost use Rattle.limits.specs.Limits.{positions, word_values};
ghost use Rattle.layout.specs.Table.{COLUMNS, Room};
ghost use Rattle.reach.specs.Work.{Work};
ghost use Rattle.retracing.specs.Backward.{OfEntry, OfEntries};
ghost use Rattle.retracing.specs.Notes.{column_of, PutIf, Notes};

use crate::bounds::Bound;
use bits::has;
use layout::words::put;
use reach::list::entry_at;

// Column `c` of node `v` becomes `x` if `b` holds.
fn put_if(p: &mut [u16], n: usize, c: usize, v: usize, b: bool, x: usize)
    requires { (c < COLUMNS) × (v < n) × Room n p.old × (x < word_values) }
    ensures { PutIf n c v b x p.old p.new }
{
    if b {
        put(p, n, c, v, x);
    }
}

// The word `x` for the starts in entry `h`: the first path's is position 0.
fn note_entry(p: &mut [u16], n: usize, second: usize, h: usize, len: usize, bound: Bound, x: usize)
    requires { Work n len p.old × (h < len) × (second < positions) × (x < word_values) }
    ensures { Notes n (column_of bound) x (OfEntry p.old n 0 h) (OfEntry p.old n second h) p.old p.new }
{
    let e = entry_at(p, n, h, len);
    let c = bound.column();
    put_if(p, n, c, e.node, has(e.set, 0), x);
    put_if(p, n, c + 1, e.node, has(e.set, second as u16), x);
}

// The word `x` for the starts in the entries from `from` up to `len`.
pub fn note_entries(
    p: &mut [u16],
    n: usize,
    second: usize,
    from: usize,
    len: usize,
    bound: Bound,
    x: usize,
)
    requires { Work n len p.old × (from ≤ len) × (second < positions) × (x < word_values) }
    ensures { Notes n (column_of bound) x (OfEntries p.old n 0 from len) (OfEntries p.old n second from len) p.old p.new }
{
    for h in from..len {
        note_entry(p, n, second, h, len, bound, x);
    }
}
