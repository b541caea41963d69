// A trial and the old call, by value: record and slice after the answer.
ghost use Rattle.std.specs.Prelude.{◌≡◌, pos, length, IfOk};
ghost use Rattle.answers.specs.Answer.{answer_map};
ghost use Rattle.streams.specs.Instant.{filled};
ghost use Rattle.session.specs.Instants.{worked_out, answer_of, slice_of, trial_of, session_of};

use crate::Session;
use crate::outcomes::outcome_of;
use crate::records::{moved_to, with_trial};
use answers::{InstantVerdict, Refusal};

// The answer, and the record that the call leaves: on a refusal too, so that no Result fits.
#[derive(Clone, Copy)]
pub struct Stepped {
    pub answer: InstantVerdict,
    pub session: Session,
}

// The values of an answered trial or old call, or its refusal. The slice is written once nothing can be refused any more.
fn shown(s: &Session, inputs: &[i64], out: &mut [i64]) -> Result<[i64; 64], Refusal>
    ensures { (answer_map (λ _. tt) result ≡ answer_of s.now inputs.now (length out.old))
        × IfOk result (λ values. values ≡ filled 64 (pos 0) (worked_out s.now inputs.now))
        × (out.new ≡ slice_of s.now inputs.now out.old) }
{
    let room = out.len();
    let values = outcome_of(s, inputs, room)?;
    out.copy_from_slice(&values[..room]);
    Ok(values)
}

// A trial.
pub fn tried(s: Session, inputs: &[i64], out: &mut [i64]) -> Stepped
    ensures { (result.answer ≡ answer_of s inputs.now (length out.old))
        × (result.session ≡ trial_of s inputs.now (length out.old))
        × (out.new ≡ slice_of s inputs.now out.old) }
{
    match shown(&s, inputs, out) {
        Ok(values) => Stepped {
            answer: Ok(()),
            session: with_trial(s, values),
        },
        Err(refusal) => Stepped {
            answer: Err(refusal),
            session: s,
        },
    }
}

// The old call: the record of a trial and its commit is made at once.
// `tried` beside it: one function for both would need a closure for the record, and clauses on its result longer than this match.
pub fn step(s: Session, inputs: &[i64], out: &mut [i64]) -> Stepped
    ensures { (result.answer ≡ answer_of s inputs.now (length out.old))
        × (result.session ≡ session_of s inputs.now (length out.old))
        × (out.new ≡ slice_of s inputs.now out.old) }
{
    match shown(&s, inputs, out) {
        Ok(values) => Stepped {
            answer: Ok(()),
            session: moved_to(s, values),
        },
        Err(refusal) => Stepped {
            answer: Err(refusal),
            session: s,
        },
    }
}
