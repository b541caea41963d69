// Turns on a node file and a certificate, and the verdict, which is one of them: all rules in the paper's order, the first failure given.
ghost use Rattle.std.specs.Prelude.{ℕ, ◌≡◌};
ghost use Rattle.constraints.specs.Layout.{trailer_of};
ghost use Rattle.constraints.specs.Rules.{types_of};
ghost use Rattle.rules.specs.Turns.{due_of, then_turn, lines_turn, moved, turn_of};
ghost use Rattle.rules.specs.Verdict.{types_of_node, constraints_verdict, file_verdict, verdict_of};
ghost use Rattle.rules.specs.Versions.{version2};
ghost use Rattle.certificate.specs.Opening.{NodePassed, FilePassed, opening_of};
ghost use Rattle.certificate.specs.Turned.{as_turn};

use crate::checker::lines_turn;
use crate::constraint_rules::first_bad;
use crate::frame::{frame_of, start_of};
use crate::refusals;
use crate::turned::{Progress, Turned, begin, unmoved};
use crate::types::types_of;
use answers::{CertificateVerdict, Place, Refusal, check, refused};
use constraints::{Trailer, counts_ok, distance_ok, fixed_ok, trailer_of};
use node::length_ok;

// Rule 15, where 11 to 14 have passed: the trailer, or the refusal.
fn constraints_opening(
    node: &[u8],
    cert: &[u8],
    types: &[u8],
    t: Trailer,
) -> Result<Trailer, Refusal>
    requires file_passed { FilePassed cert.now t }
    requires by_index { (x : ℕ) → types_of types.now x ≡ types_of_node node.now x }
    ensures { result ≡ opening_of (trailer_of cert.now) (constraints_verdict node.now cert.now) }
{
    let start = start_of(cert, t);
    let m = t.constraints as usize;
    match first_bad(cert, start, m, types, t.depth) {
        Some(i) => refused(refusals::CONSTRAINT, Place::Constraint(i)),
        None => Ok(t),
    }
}

// Rules 11 to 15.
fn opening(node: &[u8], cert: &[u8], types: &[u8]) -> Result<Trailer, Refusal>
    requires { (x : ℕ) → types_of types.now x ≡ types_of_node node.now x }
    ensures { result ≡ opening_of (trailer_of cert.now) (file_verdict version2 node.now cert.now) }
{
    let size = cert.len();
    check(length_ok(size), refusals::LENGTH, Place::File)?;
    let t = trailer_of(cert);
    check(fixed_ok(t), refusals::FIXED_BYTES, Place::File)?;
    check(counts_ok(t), refusals::COUNTS, Place::File)?;
    check(distance_ok(t, size), refusals::DISTANCE, Place::File)?;
    constraints_opening(node, cert, types, t)
}

// A turn by rules 11 to 22 and 55, where 1 to 8 and 23 have passed.
fn certificate_turn(
    node: &[u8],
    cert: &[u8],
    n: usize,
    property: u16,
    progress: Progress,
    quota: usize,
) -> Turned
    requires { NodePassed node.now n property }
    ensures { as_turn result ≡ moved (then_turn (file_verdict version2 node.now cert.now) (lines_turn version2 node.now cert.now progress.line quota)) progress.line (due_of cert.now progress.line quota) }
{
    let types = types_of(node, n);
    match opening(node, cert, &types) {
        Ok(t) => {
            let f = frame_of(cert, t, n, property);
            lines_turn(node, cert, &types, f, progress, quota)
        }
        Err(refusal) => unmoved(progress, refusal),
    }
}

// A turn: the checks before lines, and then the next lines from the record's on, as many as the quota says or all that are left.
pub fn turn(node: &[u8], cert: &[u8], progress: Progress, quota: usize) -> Turned
    ensures { as_turn result ≡ turn_of version2 node.now cert.now progress.line quota }
{
    match node::verdict(node) {
        Ok(values) => {
            certificate_turn(
                node,
                cert,
                values.streams,
                values.property as u16,
                progress,
                quota,
            )
        }
        Err(refusal) => unmoved(progress, refusal),
    }
}

// No file of 65,535 bytes has more lines.
const MOST_LINES: usize = 818;

// The verdict on a node file and a certificate: one turn with everything, which leaves no line.
pub fn verdict(node: &[u8], cert: &[u8]) -> CertificateVerdict
    ensures { result ≡ verdict_of version2 node.now cert.now }
{
    turn(node, cert, begin(), MOST_LINES).verdict.unwrap()
}
