// What each operator makes of its operands' values.
ghost use Rattle.std.specs.Prelude.{◌≡◌, not, cond, ◌&&◌, ◌||◌, ◌+ℤ◌, ◌-ℤ◌, ◌*ℤ◌};
ghost use Rattle.std.specs.Bool.{beq};
ghost use Rattle.std.specs.Int.Signed.{le_z};
ghost use Rattle.integers.specs.Range.{checked_of, lesser, greater};
ghost use Rattle.streams.specs.Values.{number, truth, equals, values_in};

use crate::operands::{entry, is_at_most, is_equal, is_true};
use integers::{difference, greater, lesser, multiple, sum};

// A number that is there already.
pub fn whole(x: i64) -> Option<i64>
    ensures { result ≡ checked_of x }
{
    Some(x)
}

// 1 for true, 0 for false.
fn of_bool(b: bool) -> Option<i64>
    ensures { result ≡ checked_of (number b) }
{
    Some(i64::from(b))
}

// not a
pub fn negation(values: &[i64], a: u16) -> Option<i64>
    ensures { result ≡ checked_of (number (not (truth (values_in values.now a)))) }
{
    of_bool(!is_true(values, a))
}

// a and b
pub fn both(values: &[i64], a: u16, b: u16) -> Option<i64>
    ensures { result ≡ checked_of (number (truth (values_in values.now a) && truth (values_in values.now b))) }
{
    of_bool(is_true(values, a) & is_true(values, b))
}

// a or b
pub fn either(values: &[i64], a: u16, b: u16) -> Option<i64>
    ensures { result ≡ checked_of (number (truth (values_in values.now a) || truth (values_in values.now b))) }
{
    of_bool(is_true(values, a) | is_true(values, b))
}

// a same as b
pub fn same(values: &[i64], a: u16, b: u16) -> Option<i64>
    ensures { result ≡ checked_of (number (beq (truth (values_in values.now a)) (truth (values_in values.now b)))) }
{
    of_bool(is_true(values, a) == is_true(values, b))
}

// a + b
pub fn plus(values: &[i64], a: u16, b: u16) -> Option<i64>
    ensures { result ≡ checked_of (values_in values.now a +ℤ values_in values.now b) }
{
    sum(entry(values, a), entry(values, b))
}

// a - b
pub fn minus(values: &[i64], a: u16, b: u16) -> Option<i64>
    ensures { result ≡ checked_of (values_in values.now a -ℤ values_in values.now b) }
{
    difference(entry(values, a), entry(values, b))
}

// k * a
pub fn times(k: i64, values: &[i64], a: u16) -> Option<i64>
    ensures { result ≡ checked_of (k *ℤ values_in values.now a) }
{
    multiple(k, entry(values, a))
}

// a at most b
pub fn at_most(values: &[i64], a: u16, b: u16) -> Option<i64>
    ensures { result ≡ checked_of (number (le_z (values_in values.now a) (values_in values.now b))) }
{
    of_bool(is_at_most(values, a, b))
}

// a equal to b
pub fn equal(values: &[i64], a: u16, b: u16) -> Option<i64>
    ensures { result ≡ checked_of (number (equals (values_in values.now a) (values_in values.now b))) }
{
    of_bool(is_equal(values, a, b))
}

// if c then a else b
pub fn chosen(values: &[i64], a: u16, b: u16, c: u16) -> Option<i64>
    ensures { result ≡ checked_of (cond (truth (values_in values.now c)) (values_in values.now a) (values_in values.now b)) }
{
    first_or_later(is_true(values, c), values, a, values, b)
}

// a of `values` at instant 0, later b of `others`
pub fn first_or_later(first: bool, values: &[i64], a: u16, others: &[i64], b: u16) -> Option<i64>
    ensures { result ≡ checked_of (cond first (values_in values.now a) (values_in others.now b)) }
{
    if first {
        whole(entry(values, a))
    } else {
        whole(entry(others, b))
    }
}

// lesser of a and b
pub fn lesser_of(values: &[i64], a: u16, b: u16) -> Option<i64>
    ensures { result ≡ checked_of (lesser (values_in values.now a) (values_in values.now b)) }
{
    whole(lesser(entry(values, a), entry(values, b)))
}

// greater of a and b
pub fn greater_of(values: &[i64], a: u16, b: u16) -> Option<i64>
    ensures { result ≡ checked_of (greater (values_in values.now a) (values_in values.now b)) }
{
    whole(greater(entry(values, a), entry(values, b)))
}
