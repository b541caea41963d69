// The answer to a trial and to the old call, and its values.
ghost use Rattle.std.specs.Prelude.{◌≡◌, pos, IfOk};
ghost use Rattle.answers.specs.Answer.{answer_map};
ghost use Rattle.streams.specs.Instant.{filled};
ghost use Rattle.session.specs.Instants.{answer_of, worked_out};

use crate::holding::node_held;
use crate::{Session, refusals};
use answers::{Place, Refusal, check, check_records, refused};
use node::input_count;
use streams::{first_bad, worked_out};

// The values of an answered call, or 30 to 34 in order, for a slice of `room` values.
pub fn outcome_of(s: &Session, inputs: &[i64], room: usize) -> Result<[i64; 64], Refusal>
    ensures answer_value { answer_map (λ _. tt) result ≡ answer_of s.now inputs.now room }
    ensures values_value { IfOk result (λ values. values ≡ filled 64 (pos 0) (worked_out s.now inputs.now)) }
{
    let Some(found) = node_held(s) else {
        return refused(refusals::NO_NODE, Place::File);
    };
    let node = &s.file[..s.length];
    let n = found.streams;
    check(
        inputs.len() == input_count(node),
        refusals::INPUT_COUNT,
        Place::File,
    )?;
    check(room == n, refusals::SLICE_LENGTH, Place::File)?;
    check_records(first_bad(node, inputs), refusals::BOOL_INPUT)?;
    match worked_out(node, &found.order[..n], inputs, s.started == 0, &s.last) {
        Ok(values) => Ok(values),
        Err(i) => refused(refusals::OUTSIDE_RANGE, Place::Record(i)),
    }
}
