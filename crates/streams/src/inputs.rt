// The inputs of an instant against their types.
ghost use Rattle.std.specs.Prelude.{◌≡◌, not, ◌||◌, pos, get_or};
ghost use Rattle.answers.specs.Checks.{lowest};
ghost use Rattle.node.specs.Equations.{type_at};
ghost use Rattle.node.specs.Inputs.{is_input};
ghost use Rattle.node.specs.Layout.{records_of};
ghost use Rattle.streams.specs.Instant.{input_fits};
ghost use Rattle.streams.specs.Typing.{fits_test};

use crate::operands::number_at;
use node::{StreamType, is_input_among, records_of, type_among, with_record};

// x fits the type: of a bool it is 0 or 1.
pub fn is_typed(ty: StreamType, x: i64) -> bool
    ensures { result ≡ fits_test ty x }
{
    match ty {
        StreamType::Bool => (0 <= x) & (x <= 1),
        StreamType::Int => true,
    }
}

// Record i of a file of n is no input, or its input, the number j of them, fits its type.
fn input_fits(file: &[u8], n: usize, inputs: &[i64], i: usize, j: usize) -> bool
    requires { n ≡ records_of file.now }
    ensures { result ≡ (not (is_input file.now i) || fits_test (type_at file.now i) (get_or inputs.now j (pos 0))) }
{
    !is_input_among(file, n, i) | is_typed(type_among(file, n, i), number_at(inputs, j))
}

// The lowest record whose input does not fit its type. The inputs below it are counted along the way.
pub fn first_bad(file: &[u8], inputs: &[i64]) -> Option<usize>
    ensures { result ≡ lowest (input_fits file.now inputs.now) (records_of file.now) }
{
    let n = records_of(file);
    let mut j = 0;
    for i in 0..n {
        if !input_fits(file, n, inputs, i, j) {
            return Some(i);
        }
        j = with_record(file, n, i, j);
    }
    None
}
