// The session's calls: the caller lends the record.
ghost use Rattle.std.specs.Prelude.{◌≡◌, length};
ghost use Rattle.node.specs.Verdict.{verdict_of};
ghost use Rattle.session.specs.Instants.{answer_of, slice_of, trial_of, commit_answer, commit_of, session_of};
ghost use Rattle.session.specs.Records.{begun_of};
ghost use Rattle.capi.specs.Answers.{told_node, told_plain};

use crate::told::Told;
use session::Session;

// A beginning: the record is set to an accepted file's node, before instant 0; a refusal leaves it.
#[unsafe(no_mangle)]
pub extern "C" fn conuhawe_begin(s: &mut Session, file: &[u8]) -> Told
    ensures { (result ≡ told_node (verdict_of file.now)) × (s.new ≡ begun_of file.now s.old) }
{
    session::begin(s, file).into()
}

// A trial: an answered one is kept in the record, which stays at its instant, and fills the slice; a refusal leaves both.
#[unsafe(no_mangle)]
pub extern "C" fn conuhawe_trial(s: &mut Session, inputs: &[i64], values: &mut [i64]) -> Told
    ensures { (result ≡ told_plain (answer_of s.old inputs.now (length values.old)))
        × (s.new ≡ trial_of s.old inputs.now (length values.old))
        × (values.new ≡ slice_of s.old inputs.now values.old) }
{
    session::trial(s, inputs, values).into()
}

// A commit: an answered one moves the record on to its trial; a refusal leaves it.
#[unsafe(no_mangle)]
pub extern "C" fn conuhawe_commit(s: &mut Session) -> Told
    ensures { (result ≡ told_plain (commit_answer s.old)) × (s.new ≡ commit_of s.old) }
{
    session::commit(s).into()
}

// An instant's call, a trial and its commit: an answered one moves the record on and fills the slice; a refusal leaves both.
#[unsafe(no_mangle)]
pub extern "C" fn conuhawe_instant(s: &mut Session, inputs: &[i64], values: &mut [i64]) -> Told
    ensures { (result ≡ told_plain (answer_of s.old inputs.now (length values.old)))
        × (s.new ≡ session_of s.old inputs.now (length values.old))
        × (values.new ≡ slice_of s.old inputs.now values.old) }
{
    session::instant(s, inputs, values).into()
}
