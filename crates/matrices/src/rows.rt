// A row of a matrix grows.
ghost use Rattle.std.specs.Prelude.{◌<◌, length};
ghost use Rattle.matrices.specs.Widening.{Joined};

use crate::sets::without;
use bits::union;

// Adds the members of `w` to the word at `at`. Gives 1 if one of them is new, and else 0: a number, since callers add up how many rows have grown.
pub fn add(p: &mut [u16], at: usize, w: u16) -> usize
    requires { at < length p.old }
    ensures { Joined at w p.old p.new result }
{
    let row = p[at];
    if without(w, row) == 0 {
        return 0;
    }
    p[at] = union(row, w);
    1
}
