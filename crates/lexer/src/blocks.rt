// Whole blocks of text bytes.
ghost use Rattle.std.specs.Prelude.{◌+◌, ◌≤◌, ◌≡◌, true, length};
ghost use Rattle.lexer.specs.declared.Class.TheVariants.{Text};
ghost use Rattle.lexer.specs.Reading.{block, AllIn, Passed};

use crate::{Class, fits};

// The bytes of a block: as many as a vector register has.
const BLOCK: usize = 16;

// Whether the bytes of a block are text. No byte ends the loop, as `all` over them would: so the machine compares them all at once.
fn text_block(s: &[u8], at: usize) -> bool
    requires { at + block ≤ length s.now }
    ensures { result ≡ true → AllIn Text s.now at (at + block) }
{
    let mut all = true;
    for i in 0..BLOCK {
        if !fits(Class::Text, s[at + i]) {
            all = false;
        }
    }
    all
}

// How far blocks of text go from an offset on, at most so many bytes.
fn text_blocks(s: &[u8], at: usize, most: usize) -> usize
    requires { at ≤ length s.now }
    ensures { Passed Text most s.now at result }
{
    let mut i = at;
    while BLOCK <= s.len() - i {
        if most - (i - at) < BLOCK || !text_block(s, i) {
            return i;
        }
        i += BLOCK;
    }
    i
}

// How far a run can be passed in blocks. Only values are long enough to gain by it.
pub fn pass(s: &[u8], at: usize, k: Class, most: usize) -> usize
    requires { at ≤ length s.now }
    ensures { Passed k most s.now at result }
{
    match k {
        Class::Digit | Class::Label => at,
        Class::Text => text_blocks(s, at, most),
    }
}
