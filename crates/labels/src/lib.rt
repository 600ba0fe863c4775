// The test of a name: the labels of the nodes against some bytes of the rule.
#![tactic(auto)]

ghost use Rattle.std.specs.Prelude.{true, List, ◌↔◌, ◌≡◌, ◌≤◌, ◌<◌, length};
ghost use Rattle.std.proofs.Math.Seq.{slice};
ghost use Rattle.limits.specs.Limits.{rule_tests};
ghost use Rattle.document_spec.specs.Library as Library;
ghost use Rattle.document_spec.specs.Library.{at};
ghost use Rattle.document_spec.specs.Verdict.{Accepts};
ghost use Rattle.table.specs.Links.{Linked};
ghost use Rattle.table.specs.Tabled.{Tabled};
ghost use Rattle.test_bits.specs.Columns.{Settled};

use document_lines::entries::read_entry;
use layout::words::offset;
use test_bits::notes::note;

// Some bytes of the document are some bytes of the rule.
fn same_bytes(s: &[u8], from: usize, to: usize, rule: &[u8], start: usize, end: usize) -> bool
    requires { (from ≤ to) × (to ≤ length s.now) × (start ≤ end) × (end ≤ length rule.now) }
    ensures { (result ≡ true) ↔ (slice from to s.now ≡ slice start end rule.now) }
{
    s[from..to] == rule[start..end]
}

// The label of node `v` is the bytes of the rule from one offset up to another.
fn has_name(s: &[u8], rule: &[u8], t: &[u16], n: usize, v: usize, from: usize, to: usize) -> bool
    requires { Tabled s.now n t.now × (v < n) × (from ≤ to) × (to ≤ length rule.now) }
    ensures { (ns : List Library.Node) → Accepts s.now ns → Linked s.now ns t.now → (result ≡ true) ↔ ((at ns v).label ≡ slice from to rule.now) }
{
    let at = offset(t, n, v);
    let e = read_entry(s, at);
    let label = e.label;
    same_bytes(s, label.from, label.to, rule, from, to)
}

// Test `k` where the label is the bytes of the rule from one offset up to another.
pub fn named(s: &[u8], rule: &[u8], t: &mut [u16], n: usize, k: usize, from: usize, to: usize)
    requires { Tabled s.now n t.old × (k < rule_tests) × (from ≤ to) × (to ≤ length rule.now) }
    ensures { (ns : List Library.Node) → Accepts s.now ns → Linked s.now ns t.old → Settled n k (λ v. (at ns v).label ≡ slice from to rule.now) t.old t.new }
{
    for v in 0..n {
        let x = has_name(s, rule, t, n, v, from, to);
        note(t, n, k, v, x);
    }
}
