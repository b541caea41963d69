// Histories of a short pass: a count of instants, and all their inputs in turn.
#![tactic(auto)]

ghost use Rattle.std.specs.Prelude.{◌+◌, ◌*◌, ◌≤◌, ◌≡◌, true, ◌&&◌, length};
ghost use Rattle.answers.specs.Answer.{is_accepted};
ghost use Rattle.node.specs.Equations.{type_among};
ghost use Rattle.node.specs.Inputs.{is_input_among, input_count};
ghost use Rattle.node.specs.Layout.{streams_of, records_of};
ghost use Rattle.node.specs.Verdict.{verdict_of};
ghost use Rattle.histories.specs.History.{inputs_at, count_ok, bad_at, bad_input};
ghost use Rattle.histories.specs.Marks.{is_bool, MarksBools, MarkedFit};

use node::{StreamType, is_input_among, type_among, with_record};
use streams::{first_bad, is_typed};

// 31, for instants with m inputs each. The product is formed only where it is at most the length: it cannot wrap.
pub fn is_counted(count: usize, m: usize, inputs: &[i64]) -> bool
    ensures { result ≡ count_ok count m inputs.now }
{
    let length = inputs.len();
    if m == 0 {
        return length == 0;
    }
    if length / m < count {
        return false;
    }
    length == count * m
}

// The inputs of instant t.
pub fn inputs_at(inputs: &[i64], m: usize, t: usize) -> &[i64]
    requires { m * t + m ≤ length inputs.now }
    ensures { result.now ≡ inputs_at m inputs.now t }
{
    let start = m * t;
    let end = start + m;
    &inputs[start..end]
}

// Record i of n is a bool input.
fn is_bool_input(file: &[u8], n: usize, i: usize) -> bool
    ensures { result ≡ (is_input_among file.now n i && is_bool (type_among file.now n i)) }
{
    matches!(type_among(file, n, i), StreamType::Bool) && is_input_among(file, n, i)
}

// For each input by its number, whether it is a bool's: so an instant's numbers are looked at without the records.
fn bools_of(file: &[u8], n: usize) -> [bool; 64]
    requires { (n ≡ records_of file.now) × (n ≤ 64) }
    ensures { MarksBools file.now n result }
{
    let mut bools = [false; 64];
    let mut j = 0;
    for i in 0..n {
        bools[j] |= is_bool_input(file, n, i);
        j = with_record(file, n, i, j);
    }
    bools
}

// The marked numbers are 0 or 1.
fn are_bools(bools: &[bool; 64], numbers: &[i64]) -> bool
    requires { length numbers.now ≤ 64 }
    ensures { result ≡ true → MarkedFit bools.now numbers.now (length numbers.now) }
{
    bools
        .iter()
        .zip(numbers)
        .all(|(&marked, &x)| !marked | is_typed(StreamType::Bool, x))
}

// 33, of instant t. The records are gone through only where a marked number is not 0 or 1.
fn bad_at(file: &[u8], bools: &[bool; 64], inputs: &[i64], m: usize, t: usize) -> Option<usize>
    requires { (is_accepted (verdict_of file.now) ≡ true) × (m ≡ input_count file.now) × (m ≤ 64) × (m * t + m ≤ length inputs.now) × MarksBools file.now (streams_of file.now) bools.now }
    ensures { result ≡ bad_at file.now inputs.now t }
{
    let numbers = inputs_at(inputs, m, t);
    if are_bools(bools, numbers) {
        return None;
    }
    first_bad(file, numbers)
}

// 33, of the earliest instant of an accepted file of n streams, m of them inputs. A history without inputs has none to look at, however
// long it is.
pub fn bad_input(file: &[u8], n: usize, count: usize, inputs: &[i64], m: usize) -> Option<usize>
    requires { (is_accepted (verdict_of file.now) ≡ true) × (n ≡ streams_of file.now) × (m ≡ input_count file.now) × (length inputs.now ≡ count * m) }
    ensures { result ≡ bad_input file.now inputs.now count }
{
    if m == 0 {
        return None;
    }
    let bools = bools_of(file, n);
    for t in 0..count {
        if let Some(i) = bad_at(file, &bools, inputs, m, t) {
            return Some(i);
        }
    }
    None
}
