// The walk of a count from one node. It stops at the last node that is asked for.
ghost use Rattle.std.specs.Prelude.{◌≤◌, ◌<◌};
ghost use Rattle.reach.specs.Work.{Work};
ghost use Rattle.counting.specs.Counting.{Find, Clean, Searched};

use bits::insert;
use layout::Part;
use layout::words::{get, put};
use machine::Machine;
use matrices::sets::touches;
use reach::expand::expand;
use reach::list::{add, entry_at};

// What a walk leaves: whether it has found as many nodes as are asked for, and how many entries its list has.
// Not a Result or an Option: the entries are forgotten whether enough was found or not, so their number is asked for in both cases.
#[derive(Clone, Copy)]
pub struct Trail {
    pub enough: bool,
    pub len: usize,
}

// The node of entry `h` is found, if the path ends there. Gives the number of nodes that are found, which was `count`.
fn find(p: &mut [u16], n: usize, last: u16, h: usize, len: usize, count: usize) -> usize
    requires { Work n len p.old × (h < len) × (count < n) }
    ensures { Find n last h count result p.old p.new }
{
    let e = entry_at(p, n, h, len);
    if !touches(last, e.set) {
        return count;
    }
    if get(p, n, Part::FOUND, e.node) == 1 {
        return count;
    }
    put(p, n, Part::FOUND, e.node, 1);
    count + 1
}

// The walk of the first path from node `v`, until `k` nodes are found where it ends.
pub fn search(p: &mut [u16], n: usize, m: Machine, v: usize, k: usize) -> Trail
    requires { Clean n p.old × (v < n) × (0 < k) × (k ≤ n) }
    ensures { Searched m n v k result p.old p.new }
{
    let start = insert(0, 0);
    let mut len = add(p, n, v, start, 0);
    let mut count = 0;
    let mut h = 0;
    while h < len {
        count = find(p, n, m.last, h, len, count);
        if count == k {
            return Trail { enough: true, len };
        }
        len = expand(p, n, m, h, len);
        h += 1;
    }
    Trail { enough: false, len }
}
