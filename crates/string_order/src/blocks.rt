// Whole blocks of bytes that agree: no byte of a block ends its loop, so that the machine compares them all at once.
ghost use Rattle.std.specs.Prelude.{◌≡◌, true, length};
ghost use Rattle.string_order.specs.Ordered.{block, Common, Begins};

// The bytes of a block: as many as a vector register has.
pub const BLOCK: usize = 16;

// Whether the bytes of a block are the same.
fn same_block(x: &[u8], y: &[u8]) -> bool
    requires { (length x.now ≡ block) × (length y.now ≡ block) }
    ensures { result ≡ true → Common x.now y.now block }
{
    // A flag, and no `all` or `==` that would end at the first byte that differs.
    let mut all = true;
    for k in 0..BLOCK {
        if x[k] != y[k] {
            all = false;
        }
    }
    all
}

// How far blocks that are the same go, from the front of two slices.
pub fn same_blocks(x: &[u8], y: &[u8]) -> usize
    requires { length x.now ≡ length y.now }
    ensures { Begins x.now y.now result }
{
    let mut k = 0;
    while BLOCK <= x.len() - k {
        if !same_block(&x[k..k + BLOCK], &y[k..k + BLOCK]) {
            return k;
        }
        k += BLOCK;
    }
    k
}
