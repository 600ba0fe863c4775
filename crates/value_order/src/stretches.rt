// The bytes that two cursors have at hand, compared as far as they go.
ghost use Rattle.std.specs.Prelude.{◌≤◌, ◌<◌, length};
ghost use Rattle.value_order.specs.Along.{Looked};

use std::cmp::Ordering;
use std::ops::ControlFlow;
use string_order::{agree, by_bytes};
use values::Reading;

// What the bytes at hand tell: how the two values compare, or else how many of the next bytes are the same. Where a cursor has none, its value is at its end.
pub fn look(s: &[u8], x: Reading, c: &[u8], y: Reading) -> ControlFlow<Ordering, usize>
    requires { (x.to ≤ length s.now) × (y.to ≤ length c.now) }
    ensures { Looked s.now x c.now y result }
{
    if x.to <= x.from {
        if y.to <= y.from {
            return ControlFlow::Break(Ordering::Equal);
        }
        return ControlFlow::Break(Ordering::Less);
    }
    if y.to <= y.from {
        return ControlFlow::Break(Ordering::Greater);
    }
    let most = (x.to - x.from).min(y.to - y.from);
    let k = agree(&s[x.from..x.from + most], &c[y.from..y.from + most]);
    if k == most {
        return ControlFlow::Continue(k);
    }
    let i = x.from + k;
    let j = y.from + k;
    ControlFlow::Break(by_bytes(s[i], c[j]))
}
