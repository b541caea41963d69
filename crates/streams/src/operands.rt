// Numbers of a list, and values read by their stream's number.
ghost use Rattle.std.specs.Prelude.{◌≡◌};
ghost use Rattle.std.specs.Int.Signed.{le_z};
ghost use Rattle.streams.specs.Values.{equals, truth, values_in};

// Number i of a list; past the end, 0.
pub fn number_at(numbers: &[i64], i: usize) -> i64
    ensures { result ≡ values_in numbers.now i }
{
    numbers.get(i).copied().unwrap_or(0)
}

// The value of stream s; past the end, 0.
pub fn entry(values: &[i64], s: u16) -> i64
    ensures { result ≡ values_in values.now s }
{
    number_at(values, usize::from(s))
}

// Whether a is at most b.
pub fn is_at_most(values: &[i64], a: u16, b: u16) -> bool
    ensures { result ≡ le_z (values_in values.now a) (values_in values.now b) }
{
    entry(values, a) <= entry(values, b)
}

// Whether a is equal to b.
pub fn is_equal(values: &[i64], a: u16, b: u16) -> bool
    ensures { result ≡ equals (values_in values.now a) (values_in values.now b) }
{
    entry(values, a) == entry(values, b)
}

// Whether s is true.
pub fn is_true(values: &[i64], s: u16) -> bool
    ensures { result ≡ truth (values_in values.now s) }
{
    entry(values, s) == 1
}
