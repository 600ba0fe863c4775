// The binary tree of an accepted document, in words of a lent scratch: one pass over the document enters each node and hangs it under the node whose child it is.
#![tactic(auto)]

ghost use Rattle.std.specs.Prelude.{◌≡◌, List, ◌*◌, ◌≤◌, ◌<◌, length, ltb};
ghost use Rattle.limits.specs.Limits.{word_values};
ghost use Rattle.document_spec.specs.Library as Library;
ghost use Rattle.document_spec.specs.Verdict.{Accepts};
ghost use Rattle.layout.specs.Table.{LAST, Room};
ghost use Rattle.layout.specs.Words.{word, Wrote};
ghost use Rattle.table.specs.Writes.{placed, entered, hung, parent_by};
ghost use Rattle.table.specs.Links.{Built};

use document_lines::entries::{first_entry, read_entry};
use layout::Table;
use layout::words::{get, put};
use limits::Scratch;

// The offset of a node's lines, in two words.
fn place(t: &mut [u16], n: usize, v: usize, at: usize)
    requires { (v < n) × Room n t.old × (at < word_values * word_values) }
    ensures { Wrote (placed n v at) t.old t.new }
{
    put(t, n, Table::LOW, v, at % Scratch::WORD_VALUES);
    put(t, n, Table::HIGH, v, at / Scratch::WORD_VALUES);
}

// Node `v` of a depth with its parent `up`: it has no child so far, and is the last node of its depth.
fn enter(t: &mut [u16], n: usize, v: usize, at: usize, depth: usize, up: usize)
    requires { (v < n) × (n < word_values) × Room n t.old × (at < word_values * word_values) × (depth < n) × (up < word_values) }
    ensures { Wrote (entered n v at depth up) t.old t.new }
{
    place(t, n, v, at);
    put(t, n, Table::LEFT, v, Table::NONE);
    put(t, n, Table::RIGHT, v, Table::NONE);
    put(t, n, Table::PARENT, v, up);
    put(t, n, Table::LAST, depth, v);
}

// Node `v` behind a node of depth `before`: it is that node's left child if it lies deeper, and else the right child of the last node of its own depth.
fn step(t: &mut [u16], n: usize, v: usize, at: usize, depth: usize, before: usize)
    requires { (0 < v) × (v < n) × (n < word_values) × Room n t.old × (at < word_values * word_values) × (depth < n) × (depth ≤ before → word t.old n LAST depth < v) }
    ensures { Wrote (hung n v at depth (ltb before depth) (parent_by t.old n v depth (ltb before depth))) t.old t.new }
{
    let prior = v - 1;
    if before < depth {
        enter(t, n, v, at, depth, prior);
        put(t, n, Table::LEFT, prior, v);
    } else {
        let u = get(t, n, Table::LAST, depth);
        enter(t, n, v, at, depth, u);
        put(t, n, Table::RIGHT, u, v);
    }
}

// The tree of an accepted document of `n` nodes, in the first 16 * n words of the scratch. All behind them stays.
pub fn build(s: &[u8], t: &mut [u16], n: usize)
    requires { (ns : List Library.Node) × Accepts s.now ns × (length ns ≡ n) × Room n t.old }
    ensures { (ns : List Library.Node) → Accepts s.now ns → Built s.now ns t.old t.new }
{
    let first = first_entry(s);
    let root = read_entry(s, first);
    enter(t, n, 0, first, 0, Table::NONE);
    let mut at = root.next;
    let mut before = 0;
    for v in 1..n {
        let e = read_entry(s, at);
        step(t, n, v, at, e.depth, before);
        at = e.next;
        before = e.depth;
    }
}
