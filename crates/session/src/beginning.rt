// A beginning, by value.
ghost use Rattle.std.specs.Prelude.{◌+◌, ◌≤◌, ◌≡◌, length, drop};
ghost use Rattle.answers.specs.Answer.{accepted};
ghost use Rattle.node.specs.Verdict.{verdict_of};
ghost use Rattle.streams.specs.Instant.{filled};
ghost use Rattle.session.specs.Records.{begun as begunOn, begun_of};

use crate::Session;
use answers::{NodeValues, NodeVerdict};
use node::verdict;

// The answer, and the record that the call leaves: on a refusal too, so that no Result fits.
#[derive(Clone, Copy)]
pub struct BegunSession {
    pub answer: NodeVerdict,
    pub session: Session,
}

// The file from an offset on, zeros after it.
fn copy_from(file: &[u8], start: usize) -> [u8; 1040]
    requires { (start ≤ length file.now) × (length file.now ≤ start + 1040) }
    ensures { result ≡ filled 1040 0 (drop start file.now) }
{
    let rest = &file[start..];
    let mut copy = [0u8; 1040];
    copy[..rest.len()].copy_from_slice(rest);
    copy
}

// A record set to an accepted file's node, before instant 0 and with no trial: its records and trailer are the file's last bytes.
fn session_on(file: &[u8], node: NodeValues) -> Session
    requires { verdict_of file.now ≡ accepted node }
    ensures { result ≡ begunOn file.now }
{
    let length = 16 + 16 * node.streams;
    let file = copy_from(file, file.len() - length);
    Session {
        length,
        last: [0i64; 64],
        trial: [0i64; 64],
        file,
        started: 0,
        held: 0,
        spare: [0u8; 6],
    }
}

// A beginning: the file's verdict, and the record set to its node where it is accepted.
pub fn begun(s: Session, file: &[u8]) -> BegunSession
    ensures { (result.answer ≡ verdict_of file.now) × (result.session ≡ begun_of file.now s) }
{
    let answer = verdict(file);
    let session = match answer {
        Ok(node) => session_on(file, node),
        Err(_) => s,
    };
    BegunSession { answer, session }
}
