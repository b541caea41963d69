// What a node means over 64-bit numbers: the value of one equation, that of its operator's row where 64 signed bits hold it, and of
// all streams at one instant. Every published call is total but `worked_out`, which asks for an accepted file and its order.
#![tactic(auto)]

ghost use Rattle.std.specs.Prelude.{◌≡◌};
ghost use Rattle.integers.specs.Range.{checked_of};
ghost use Rattle.streams.specs.Meaning.{meaning};
ghost use Rattle.streams.specs.Values.{values_in};

use node::Equation;
use operators::{chosen, first_or_later};

mod inputs;
mod operands;
mod operators;
mod values;

pub use inputs::{first_bad, is_typed};
pub use operands::number_at;
pub use operators::{
    at_most, both, either, equal, greater_of, lesser_of, minus, negation, plus, same, times, whole,
};
pub use values::worked_out;

// The value of a stream by its equation: `given` is its input, `past` and `present` are the values of all streams one instant
// before and at this instant. What they do not hold counts as 0.
pub fn value(e: Equation, given: i64, first: bool, past: &[i64], present: &[i64]) -> Option<i64>
    ensures { result ≡ checked_of (meaning e given first (values_in past.now) (values_in present.now)) }
{
    match e {
        Equation::Input => whole(given),
        Equation::Constant(k) => whole(i64::from(k)),
        Equation::Not(a) => negation(present, a),
        Equation::And(a, b) => both(present, a, b),
        Equation::Or(a, b) => either(present, a, b),
        Equation::Same(a, b) => same(present, a, b),
        Equation::Sum(a, b) => plus(present, a, b),
        Equation::Difference(a, b) => minus(present, a, b),
        Equation::Multiple(k, a) => times(i64::from(k), present, a),
        Equation::AtMost(a, b) => at_most(present, a, b),
        Equation::Equal(a, b) => equal(present, a, b),
        Equation::If {
            condition,
            then,
            otherwise,
        } => chosen(present, then, otherwise, condition),
        Equation::Arrow(a, b) => first_or_later(first, present, a, present, b),
        Equation::FollowedBy(a, b) => first_or_later(first, present, a, past, b),
        Equation::Lesser(a, b) => lesser_of(present, a, b),
        Equation::Greater(a, b) => greater_of(present, a, b),
    }
}
