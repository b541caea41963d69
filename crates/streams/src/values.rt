// The values of all streams at one instant.
ghost use Rattle.std.specs.Prelude.{◌≤◌, ◌≡◌, true, pos, IfOk};
ghost use Rattle.std.specs.Result.{result_err};
ghost use Rattle.answers.specs.Answer.{is_accepted};
ghost use Rattle.node.specs.Layout.{records_of};
ghost use Rattle.node.specs.Reads.{order_of};
ghost use Rattle.node.specs.Verdict.{verdict_of};
ghost use Rattle.streams.specs.Instant.{instant_of, value_inside, first_along, HoldInputs, filled};

use crate::operands::number_at;
use crate::value;
use node::{equation_among, with_record};

// The input of each of n streams, so that one can be worked out in any turn. The inputs below each are counted along the way.
fn spread(file: &[u8], n: usize, inputs: &[i64]) -> [i64; 64]
    requires { (n ≡ records_of file.now) × (n ≤ 64) }
    ensures { HoldInputs file.now inputs.now n result }
{
    let mut given = [0i64; 64];
    let mut j = 0;
    for i in 0..n {
        given[i] = number_at(inputs, j);
        j = with_record(file, n, i, j);
    }
    given
}

// All streams along the worked-out order of an accepted file, untaken branches too; or the first in the order whose value 64 signed
// bits do not hold.
pub fn worked_out(
    file: &[u8],
    order: &[usize],
    inputs: &[i64],
    first: bool,
    past: &[i64],
) -> Result<[i64; 64], usize>
    requires { (is_accepted (verdict_of file.now) ≡ true) × (order.now ≡ order_of file.now) }
    ensures outside_value { result_err result ≡ first_along (order_of file.now) (value_inside (instant_of file.now inputs.now first past.now)) }
    ensures values_value { IfOk result (λ values. values ≡ filled 64 (pos 0) (instant_of file.now inputs.now first past.now)) }
{
    let n = order.len();
    let given = spread(file, n, inputs);
    let mut values = [0i64; 64];
    for &i in order {
        let Some(v) = value(equation_among(file, n, i), given[i], first, past, &values) else {
            return Err(i);
        };
        values[i] = v;
    }
    Ok(values)
}
