// The key of the amount of each node, read from its compared value.
ghost use Rattle.std.specs.Prelude.{List, ◌≡◌, ◌<◌};
ghost use Rattle.document_spec.specs.Library as Library;
ghost use Rattle.document_spec.specs.Verdict.{Accepts};
ghost use Rattle.value_notes.specs.Notes.{Annotated};
ghost use Rattle.amounts.specs.Weighed.{key_at};
ghost use Rattle.amounts.specs.Steps.{Keyed};

use crate::columns::put_key;
use numerals::{NO_KEY, Scan, begin, key, scan_bytes};
use values::{Reading, refill, value_of};

// The cursor behind the bytes at hand.
fn spent(c: Reading) -> Reading
    ensures { result ≡ record { from = c.to; to = c.to; node = c.node; last = c.last } }
{
    Reading {
        from: c.to,
        to: c.to,
        node: c.node,
        last: c.last,
    }
}

// The key of node `v`. A value of several texts is read through them all, but no further than it can still be a numeral.
pub fn node_key(s: &[u8], t: &[u16], n: usize, v: usize) -> usize
    requires { Annotated s.now n t.now × (v < n) }
    ensures { (ns : List Library.Node) → Accepts s.now ns → result ≡ key_at ns v }
{
    let mut x: Reading = value_of(t, n, v);
    let mut c: Scan = begin();
    loop {
        x = refill(t, n, x);
        if x.to <= x.from {
            return key(Some(c));
        }
        let Some(r) = scan_bytes(s, x.from, x.to, Some(c)) else {
            return NO_KEY;
        };
        c = r;
        x = spent(x);
    }
}

// The keys of all nodes.
pub fn note_keys(s: &[u8], t: &mut [u16], n: usize)
    requires { Annotated s.now n t.old }
    ensures { Keyed s.now n n t.old t.new }
{
    for v in 0..n {
        let k = node_key(s, t, n, v);
        put_key(t, n, v, k);
    }
}
