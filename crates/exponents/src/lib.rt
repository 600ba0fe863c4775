// The exponent of the largest power of two not above a length from 1 to 4,096, by formula; and the power of an exponent.
#![tactic(auto)]

ghost use Rattle.std.specs.Prelude.{◌≡◌, ◌^◌, ◌≤◌, ◌<◌};
ghost use Rattle.limits.specs.Limits.{document_nodes, node_digits};
ghost use Rattle.exponents.specs.Exponent.{Exponent};

// The exponent for a length is the place of its highest binary digit: 0 for the length 1, and for each place further up there is a leading zero less.
pub fn exponent(length: usize) -> u8
    requires { (1 ≤ length) × (length ≤ document_nodes) }
    ensures { Exponent length result }
{
    (usize::leading_zeros(1) - usize::leading_zeros(length)) as u8
}

// 2^k.
pub fn two_to(k: usize) -> usize
    requires { k < node_digits }
    ensures { result ≡ 2 ^ k }
{
    1 << k
}
