// A commit, by value.
ghost use Rattle.std.specs.Prelude.{◌≡◌};
ghost use Rattle.session.specs.Instants.{commit_answer, commit_of};

use crate::holding::node_held;
use crate::making::Stepped;
use crate::records::moved_to;
use crate::{Session, refusals};
use answers::{InstantVerdict, Place, check};

// 30 and then 35. A commit works nothing out, so that 31 to 34 are never its answer.
fn commit_answer(s: &Session) -> InstantVerdict
    ensures { result ≡ commit_answer s.now }
{
    check(node_held(s).is_some(), refusals::NO_NODE, Place::File)?;
    check(s.held != 0, refusals::NO_TRIAL, Place::File)
}

// A commit: a refusal leaves the record.
pub fn committed(s: Session) -> Stepped
    ensures { (result.answer ≡ commit_answer s) × (result.session ≡ commit_of s) }
{
    let answer = commit_answer(&s);
    let trial = s.trial;
    let session = match answer {
        Ok(()) => moved_to(s, trial),
        Err(_) => s,
    };
    Stepped { answer, session }
}
