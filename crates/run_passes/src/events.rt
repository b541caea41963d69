// Events of a pass, made on a session by value, each with its line. A write that fails is passed over.
ghost use Rattle.std.specs.Prelude.{◌≤◌, ◌≡◌, cond, length};
ghost use Rattle.session.specs.Events.{beginning, commit, after_event};
ghost use Rattle.session.specs.Instants.{answer_of, slice_of, trial_of, session_of};
ghost use Rattle.session.specs.Records.{begun_of};
ghost use Rattle.run_passes.specs.Pass.{call_of, call_event, file_of, event_of, ShownOf};
ghost use Rattle.report.specs.Line.{Leading};

use crate::pass;
use crate::pass::Kind;
use report::{MARK, write_call};
use session::{Session, Stepped, begun, committed, step, tried};

// The session after a beginning, whose line is printed.
pub fn begun_on(rt: &impl Print, s: Session, file: &[u8]) -> Session
    ensures { result ≡ begun_of file.now s }
{
    let t = begun(s, file);
    match t.answer {
        Ok(node) => {
            let streams = node.streams;
            let _ = println!(rt; "begun streams {streams}");
        }
        Err(refusal) => report::say_verdict(rt, Err(refusal)),
    }
    t.session
}

// The session after an event, and how long its line is.
#[derive(Clone, Copy)]
struct Shown {
    session: Session,
    length: usize,
}

// A trial or the old call. A closure in place of the flag would need the flag in each clause, to say what it answers.
fn made(s: Session, trying: bool, inputs: &[i64], out: &mut [i64]) -> Stepped
    ensures { (result.answer ≡ answer_of s inputs.now (length out.old))
        × (result.session ≡ cond trying (trial_of s inputs.now (length out.old)) (session_of s inputs.now (length out.old)))
        × (out.new ≡ slice_of s inputs.now out.old) }
{
    if trying {
        tried(s, inputs, out)
    } else {
        step(s, inputs, out)
    }
}

// It is made on a slice of which it is lent the first `room` values, and its line written.
fn show_call(s: Session, trying: bool, event: &[u8], out: &mut [u8; 1440]) -> Shown
    ensures shown_of { ShownOf s (call_event trying (call_of event.now)) result.session result.length out.old out.new }
    ensures leading { Leading result.length out.new }
{
    let inputs = pass::numbers(event);
    let count = pass::input_count(event);
    let mut slice = [MARK; 65];
    let room = pass::slice_length(event);
    let t = made(s, trying, &inputs[..count], &mut slice[..room]);
    let length = write_call(t.answer, slice, room, out);
    Shown {
        session: t.session,
        length,
    }
}

// A commit is lent no slice: its line is that of a call on none.
fn show_commit(s: Session, out: &mut [u8; 1440]) -> Shown
    ensures shown_of { ShownOf s commit result.session result.length out.old out.new }
    ensures leading { Leading result.length out.new }
{
    let t = committed(s);
    let length = write_call(t.answer, [MARK; 65], 0, out);
    Shown {
        session: t.session,
        length,
    }
}

// The session after a trial or an old call, whose line is printed.
fn called(rt: &impl Print, s: Session, trying: bool, event: &[u8]) -> Session
    ensures { result ≡ after_event s (call_event trying (call_of event.now)) }
{
    if trying {
        let _ = rt.print("trial: ");
    }
    let mut line = [0u8; 1440];
    let t = show_call(s, trying, event, &mut line);
    let _ = rt.write_all(&line[..t.length]);
    t.session
}

fn committed_now(rt: &impl Print, s: Session) -> Session
    ensures { result ≡ after_event s commit }
{
    let _ = rt.print("commit: ");
    let mut line = [0u8; 1440];
    let t = show_commit(s, &mut line);
    let _ = rt.write_all(&line[..t.length]);
    t.session
}

fn begun_again(rt: &impl Print, s: Session, event: &[u8]) -> Session
    requires { 6 ≤ length event.now }
    ensures { result ≡ after_event s (beginning (file_of event.now)) }
{
    let _ = rt.print("beginning: ");
    begun_on(rt, s, pass::file(event))
}

// The session after an event of a pass.
pub fn after_event(rt: &impl Print, s: Session, event: &[u8]) -> Session
    ensures { result ≡ after_event s (event_of event.now) }
{
    match pass::kind_of(event) {
        Kind::OldCall => called(rt, s, false, event),
        Kind::Trial => called(rt, s, true, event),
        Kind::Commit => committed_now(rt, s),
        Kind::Beginning => begun_again(rt, s, event),
    }
}
