// The published calls: the caller lends the record.
ghost use Rattle.std.specs.Prelude.{◌≡◌, length};
ghost use Rattle.node.specs.Verdict.{verdict_of};
ghost use Rattle.session.specs.Instants.{answer_of, slice_of, trial_of, commit_answer, commit_of, session_of};
ghost use Rattle.session.specs.Records.{begun_of};

use crate::Session;
use crate::beginning::begun;
use crate::committing::committed;
use crate::making::{step, tried};
use answers::{InstantVerdict, NodeVerdict};

// A beginning: the record is set to an accepted file's node, before instant 0; a refusal leaves it.
pub fn begin(s: &mut Session, file: &[u8]) -> NodeVerdict
    ensures { (result ≡ verdict_of file.now) × (s.new ≡ begun_of file.now s.old) }
{
    let t = begun(*s, file);
    *s = t.session;
    t.answer
}

// A trial: an answered one is kept in the record, which stays at its instant, and fills the slice; a refusal leaves both.
pub fn trial(s: &mut Session, inputs: &[i64], values: &mut [i64]) -> InstantVerdict
    ensures { (result ≡ answer_of s.old inputs.now (length values.old))
        × (s.new ≡ trial_of s.old inputs.now (length values.old))
        × (values.new ≡ slice_of s.old inputs.now values.old) }
{
    let t = tried(*s, inputs, values);
    *s = t.session;
    t.answer
}

// A commit: an answered one moves the record on to its trial; a refusal leaves it.
pub fn commit(s: &mut Session) -> InstantVerdict
    ensures { (result ≡ commit_answer s.old) × (s.new ≡ commit_of s.old) }
{
    let t = committed(*s);
    *s = t.session;
    t.answer
}

// An instant's call, a trial and its commit: an answered one moves the record on and fills the slice; a refusal leaves both.
pub fn instant(s: &mut Session, inputs: &[i64], values: &mut [i64]) -> InstantVerdict
    ensures { (result ≡ answer_of s.old inputs.now (length values.old))
        × (s.new ≡ session_of s.old inputs.now (length values.old))
        × (values.new ≡ slice_of s.old inputs.now values.old) }
{
    let t = step(*s, inputs, values);
    *s = t.session;
    t.answer
}
