// Bytes where they stand, without the blanks at their ends.
#![tactic(auto)]

ghost use Rattle.std.specs.Prelude.{◌≤◌, length};
ghost use Rattle.blanks.specs.Trimmed.{Skipped, Trimmed};

use document_lines::entries::Span;

// A blank.
const BLANK: u8 = b' ';

// The first byte of a span that is no blank, or its end.
fn skip(s: &[u8], p: Span) -> usize
    requires { (p.from ≤ p.to) × (p.to ≤ length s.now) }
    ensures { Skipped s.now p result }
{
    for i in p.from..p.to {
        if s[i] != BLANK {
            return i;
        }
    }
    p.to
}

// The bytes of a span without the blanks at both ends.
pub fn trim(s: &[u8], p: Span) -> Span
    requires { (p.from ≤ p.to) × (p.to ≤ length s.now) }
    ensures { Trimmed s.now p result }
{
    let from = skip(s, p);
    for last in (from..p.to).rev() {
        if s[last] != BLANK {
            return Span { from, to: last + 1 };
        }
    }
    Span { from, to: from }
}
