// Text written into a lent buffer from an index on. Each call hands back the index past what it wrote. As methods of a struct of the two,
// `put_number`, which calls itself, gets no generated proof.
ghost use Rattle.std.specs.Prelude.{◌+◌, ◌≤◌, [], ◌∷◌, ◌++◌, length};
ghost use Rattle.report.specs.Decimal.{decimal, digit};
ghost use Rattle.report.specs.Written.{Written};

// A piece of text.
pub fn put(out: &mut [u8], at: usize, text: &[u8]) -> usize
    requires { at + length text.now ≤ length out.old }
    ensures { Written out.old at text.now out.new result }
{
    let past = at + text.len();
    out[at..past].copy_from_slice(text);
    past
}

// One decimal digit, in ASCII.
fn put_digit(out: &mut [u8], at: usize, d: usize) -> usize
    requires { (d ≤ 9) × (at + 1 ≤ length out.old) }
    ensures { Written out.old at (digit d ∷ []) out.new result }
{
    out[at] = 48 + d as u8;
    at + 1
}

// The decimal digits of a number, highest first.
fn put_number(out: &mut [u8], at: usize, n: usize) -> usize
    requires { at + length (decimal n) ≤ length out.old }
    ensures { Written out.old at (decimal n) out.new result }
{
    if n < 10 {
        return put_digit(out, at, n);
    }
    let last = put_number(out, at, n / 10);
    put_digit(out, last, n % 10)
}

// A word and a number, which has at most 20 digits.
pub fn put_field(out: &mut [u8], at: usize, word: &[u8], n: usize) -> usize
    requires { at + length word.now + 20 ≤ length out.old }
    ensures { (Written out.old at (word.now ++ decimal n) out.new result)
        × (result ≤ at + length word.now + 20) }
{
    let next = put(out, at, word);
    put_number(out, next, n)
}
