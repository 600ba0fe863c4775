// Steps of a cursor over the bytes of a value.
ghost use Rattle.std.specs.Prelude.{List, ◌≡◌, true, ℕ, ◌+◌, ◌≤◌, ◌<◌};
ghost use Rattle.document_spec.specs.Library as Library;
ghost use Rattle.values.specs.Comes.{Comes};
ghost use Rattle.value_order.specs.Along.{Moved};

use values::Reading;

// The cursor `k` bytes further in what is at hand.
pub fn behind(c: Reading, k: usize) -> Reading
    requires { c.from + k ≤ c.to }
    ensures { (s : List ℕ) (ns : List Library.Node) (bs : List ℕ) → Comes s ns c bs → Moved s ns c k bs result }
{
    Reading {
        from: c.from + k,
        to: c.to,
        node: c.node,
        last: c.last,
    }
}

// The cursor behind the text of a later node.
pub fn past(c: Reading, node: usize) -> Reading
    ensures { result ≡ record { from = 0; to = 0; node = node; last = c.last } }
{
    Reading {
        from: 0,
        to: 0,
        node,
        last: c.last,
    }
}

// Whether the bytes at hand are used up, and another text comes behind them.
pub fn is_between(c: Reading) -> bool
    ensures { result ≡ true → (c.to ≤ c.from) × (c.node < c.last) }
{
    c.to <= c.from && c.node < c.last
}
