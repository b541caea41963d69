// The inputs of a node, in record order.
ghost use Rattle.std.specs.Prelude.{◌≡◌};
ghost use Rattle.node.specs.Inputs.{is_input_among, with_record_among, input_count};

use crate::equation::{Equation, equation_among};
use crate::layout::records_of;

// Record i of n is an input.
pub fn is_input_among(file: &[u8], n: usize, i: usize) -> bool
    ensures { result ≡ is_input_among file.now n i }
{
    matches!(equation_among(file, n, i), Equation::Input)
}

// The inputs counted so far, with record i of n. A count that no node reaches stays, so that none overflows.
pub fn with_record(file: &[u8], n: usize, i: usize, inputs: usize) -> usize
    ensures { result ≡ with_record_among file.now n i inputs }
{
    if is_input_among(file, n, i) && inputs < 9223372036854775808 {
        inputs + 1
    } else {
        inputs
    }
}

// How many inputs the node has.
pub fn input_count(file: &[u8]) -> usize
    ensures { result ≡ input_count file.now }
{
    let n = records_of(file);
    let mut inputs = 0;
    for i in 0..n {
        inputs = with_record(file, n, i, inputs);
    }
    inputs
}
