// Signed 64-bit arithmetic that is checked against whole numbers: each operation gives the whole-number result
// where it lies within −2^63 .. 2^63 − 1, and says that it is outside where it does not.
#![tactic(auto, using(crate::proofs::Promises::promises))]

ghost use Rattle.std.specs.Prelude.{◌≡◌, ◌+ℤ◌, ◌-ℤ◌, ◌*ℤ◌, nat_abs};
ghost use Rattle.integers.specs.Range.{checked_of, lesser, greater, signed_of};

// a + b.
pub fn sum(a: i64, b: i64) -> Option<i64>
    ensures { result ≡ checked_of (a +ℤ b) }
{
    a.checked_add(b)
}

// a - b.
pub fn difference(a: i64, b: i64) -> Option<i64>
    ensures { result ≡ checked_of (a -ℤ b) }
{
    a.checked_sub(b)
}

// The lesser of a and b.
pub fn lesser(a: i64, b: i64) -> i64
    ensures { result ≡ lesser a b }
{
    a.min(b)
}

// The greater of a and b.
pub fn greater(a: i64, b: i64) -> i64
    ensures { result ≡ greater a b }
{
    a.max(b)
}

// k * a: the product of the magnitudes, where it is at most 2^63, with the sign of the product.
pub fn multiple(k: i64, a: i64) -> Option<i64>
    ensures { result ≡ checked_of (k *ℤ a) }
{
    let m = magnitude(k);
    let n = magnitude(a);
    if m == 0 {
        return Some(0);
    }
    if 9223372036854775808 / m < n {
        return None;
    }
    signed((k < 0) != (a < 0), m * n)
}

// The magnitude of a, which 64 bits with no sign hold even for −2^63.
pub fn magnitude(a: i64) -> u64
    ensures { result ≡ nat_abs a }
{
    a.unsigned_abs()
}

// The number of magnitude m, below 0 where `negative`.
fn signed(negative: bool, m: u64) -> Option<i64>
    ensures { result ≡ checked_of (signed_of negative m) }
{
    if negative {
        0i64.checked_sub_unsigned(m)
    } else {
        0i64.checked_add_unsigned(m)
    }
}
