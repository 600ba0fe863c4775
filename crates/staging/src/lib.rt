// What a comparison needs of the tree and of other tests, copied to the front of its part of the scratch: that part alone is lent to it.
#![tactic(auto)]

mod relations;

ghost use Rattle.std.specs.Prelude.{List, ◌≡◌, ℕ, ◌*◌, ◌≤◌, ◌<◌, ◌+◌, length, get_or};
ghost use Rattle.std.proofs.Math.Seq.{slice};
ghost use Rattle.limits.specs.Limits.{positions, rule_tests};
ghost use Rattle.lists.specs.Blanks.{trim as cut};
ghost use Rattle.bits.specs.Sets.{bit, and};
ghost use Rattle.xpath.specs.Syntax.{Op};
ghost use Rattle.document_spec.specs.Library as Library;
ghost use Rattle.document_spec.specs.Verdict.{Accepts};
ghost use Rattle.layout.specs.Part.{HIT};
ghost use Rattle.layout.specs.Table.{Room, COLUMNS};
ghost use Rattle.layout.specs.Words.{word};
ghost use Rattle.blanks.specs.Trimmed.{between};
ghost use Rattle.value_notes.specs.Notes.{Annotated};
ghost use Rattle.ranks.specs.Ranks.{Ranked};
ghost use Rattle.amounts.specs.Weighed.{Weighed};
ghost use Rattle.rule_parts.specs.Kinds.{operator};
ghost use Rattle.test_bits.specs.Columns.{held};
ghost use Rattle.staging.specs.Signs.{ByText, ranks_of};
ghost use Rattle.staging.specs.Drawing.{Repeated, Copied, RanksCopied, Stayed, Hit, HitsFilled, HitsCleared, Judged};

use bits::{has, insert};
use blanks::trim;
use constants::{Place, Target, compare_rank, find_place};
use document_lines::entries::Span;
use layout::words::get;
use layout::{Part, Table};
use limits::Rule;
use numerals::{NO_KEY, key_of};
use relations::{by_text, fits};
use rule_parts::kinds::Operator;
use test_bits::holds;

// The part begins behind the table. It has the links and the ranks in the same columns as that, and then two more.
const LINKS: usize = Table::COLUMNS + Table::LEFT;

const RANK: usize = Table::COLUMNS + Table::RANK;

const STAYS: usize = Table::COLUMNS + Part::STAYS;

const HITS: usize = Table::COLUMNS + Part::HIT;

// The words from one offset on are copied to behind them.
fn copy(t: &mut [u16], from: usize, to: usize, size: usize)
    requires { (from + size ≤ to) × (to + size ≤ length t.old) }
    ensures { Repeated from to size t.old t.new }
{
    t.copy_within(from..from + size, to);
}

// The links, which stand in three columns.
pub fn draw(t: &mut [u16], n: usize)
    requires { (COLUMNS + HIT + 1) * n ≤ length t.old }
    ensures { Copied n t.old t.new }
{
    copy(t, Table::LEFT * n, LINKS * n, 3 * n);
}

// The column of the ranks that a sign compares.
pub fn ranks_of(o: Operator) -> usize
    ensures { (result < COLUMNS) × ((q : Op) → o ≡ operator q → result ≡ ranks_of q) }
{
    if by_text(o) {
        Table::RANK
    } else {
        Table::AMOUNT
    }
}

// The ranks that stand in column `c` of the table.
pub fn draw_ranks(t: &mut [u16], n: usize, c: usize)
    requires { ((COLUMNS + HIT + 1) * n ≤ length t.old) × (c < COLUMNS) }
    ensures { RanksCopied n c t.old t.new }
{
    copy(t, c * n, RANK * n, n);
}

// The positions in `brackets` whose test holds at node `v`.
fn tests_at(
    t: &[u16],
    n: usize,
    v: usize,
    brackets: u16,
    numbers: [usize; Rule::MAX_POSITIONS],
) -> u16
    requires { Room n t.now × (v < n) × ((j : ℕ) → j < positions → get_or numbers j 0 < rule_tests) }
    ensures { (j : ℕ) → j < positions → bit result j ≡ and (bit brackets j) (held t.now n (get_or numbers j 0) v) }
{
    let mut w = 0;
    for j in 0..Rule::MAX_POSITIONS {
        if has(brackets, j as u16) && holds(t, n, numbers[j], v) {
            w = insert(w, j as u16);
        }
    }
    w
}

// Where the bracketed tests hold; the test of position j has the number `numbers[j]`.
pub fn draw_tests(t: &mut [u16], n: usize, brackets: u16, numbers: [usize; Rule::MAX_POSITIONS])
    requires { ((COLUMNS + HIT + 1) * n ≤ length t.old) × ((j : ℕ) → j < positions → get_or numbers j 0 < rule_tests) }
    ensures { Stayed n brackets numbers t.old t.new }
{
    let column = STAYS * n;
    for v in 0..n {
        let w = tests_at(t, n, v, brackets, numbers);
        t[column + v] = w;
    }
}

// 1 if the sign stands for what the place tells of the rank of node `v`. A node without a rank has no amount, and is not hit.
fn hit(t: &[u16], n: usize, column: usize, v: usize, p: Place, o: Operator) -> u16
    requires { Room n t.now × (column < COLUMNS) × (v < n) }
    ensures { Hit n p o (word t.now n column v) result }
{
    let r = get(t, n, column, v);
    if n <= r {
        return 0;
    }
    u16::from(fits(compare_rank(r, p), o))
}

// The hits of all nodes, by their ranks in a column.
fn fill_hits(t: &mut [u16], n: usize, column: usize, p: Place, o: Operator)
    requires { ((COLUMNS + HIT + 1) * n ≤ length t.old) × (column < COLUMNS) }
    ensures { HitsFilled n column p o t.old t.new }
{
    let hits = HITS * n;
    for v in 0..n {
        let x = hit(t, n, column, v, p, o);
        t[hits + v] = x;
    }
}

// No node is hit.
fn clear_hits(t: &mut [u16], n: usize)
    requires { (COLUMNS + HIT + 1) * n ≤ length t.old }
    ensures { HitsCleared n t.old t.new }
{
    let hits = HITS * n;
    t[hits..hits + n].fill(0);
}

// Where the text is in the relation to the constant, which stands in the rule without blanks at its ends.
fn draw_text_hits(s: &[u8], rule: &[u8], t: &mut [u16], n: usize, c: Span, o: Operator)
    requires { Annotated s.now n t.old × ((COLUMNS + HIT + 1) * n ≤ length t.old) × (c.from ≤ c.to) × (c.to ≤ length rule.now) }
    ensures { (ns : List Library.Node) (q : Op) (k : List ℕ) → Accepts s.now ns → Ranked ns t.old → Weighed ns t.old → o ≡ operator q → ByText q → cut k ≡ between rule.now c → Judged ns n q k t.old t.new }
{
    let p = find_place(s, rule, t, n, Target::Text(c));
    fill_hits(t, n, Table::RANK, p, o);
}

// Where the amount is. No amount is in the relation to a constant that is no numeral.
fn draw_amount_hits(s: &[u8], rule: &[u8], t: &mut [u16], n: usize, c: Span, o: Operator)
    requires { Annotated s.now n t.old × ((COLUMNS + HIT + 1) * n ≤ length t.old) × (c.from ≤ c.to) × (c.to ≤ length rule.now) }
    ensures { (ns : List Library.Node) (q : Op) (k : List ℕ) → Accepts s.now ns → Ranked ns t.old → Weighed ns t.old → o ≡ operator q → ¬ ByText q → cut k ≡ between rule.now c → Judged ns n q k t.old t.new }
{
    let k = key_of(rule, c.from, c.to);
    if k == NO_KEY {
        clear_hits(t, n);
    } else {
        let p = find_place(s, rule, t, n, Target::Amount(k));
        fill_hits(t, n, Table::AMOUNT, p, o);
    }
}

// Where the value is in the relation to the constant that stands in the rule from one offset up to another; blanks at its ends do not count.
pub fn draw_hits(
    s: &[u8],
    rule: &[u8],
    t: &mut [u16],
    n: usize,
    from: usize,
    to: usize,
    o: Operator,
)
    requires { Annotated s.now n t.old × ((COLUMNS + HIT + 1) * n ≤ length t.old) × (from ≤ to) × (to ≤ length rule.now) }
    ensures { (ns : List Library.Node) (q : Op) → Accepts s.now ns → Ranked ns t.old → Weighed ns t.old → o ≡ operator q → Judged ns n q (slice from to rule.now) t.old t.new }
{
    let c = trim(rule, Span { from, to });
    if by_text(o) {
        draw_text_hits(s, rule, t, n, c, o);
    } else {
        draw_amount_hits(s, rule, t, n, c, o);
    }
}
