// The records that answered calls leave.
ghost use Rattle.std.specs.Prelude.{◌≡◌};
ghost use Rattle.session.specs.Instants.{with_trial, moved_to};

use crate::Session;

// The record with a trial's values, at the instant where it stands.
pub fn with_trial(s: Session, values: [i64; 64]) -> Session
    ensures { result ≡ with_trial s values }
{
    Session {
        trial: values,
        held: 1,
        spare: [0u8; 6],
        ..s
    }
}

// The record moved on to committed values, with no trial.
pub fn moved_to(s: Session, values: [i64; 64]) -> Session
    ensures { result ≡ moved_to s values }
{
    Session {
        last: values,
        trial: [0i64; 64],
        started: 1,
        held: 0,
        spare: [0u8; 6],
        ..s
    }
}
