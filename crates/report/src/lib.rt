// The line that a program prints for a verdict on a certificate, and for a call of a session. A `Display` would promise its text only where
// the write is Ok; these lines are always written.
#![tactic(auto)]

ghost use Rattle.std.specs.Prelude.{◌≡◌, length, take};
ghost use Rattle.report.specs.Call.{call_line};
ghost use Rattle.report.specs.Line.{line_of, overwritten, Leading};

use answers::{CertificateVerdict, InstantVerdict};

mod calls;
mod lines;
mod say;
mod text;

pub use calls::MARK;
pub use say::say_verdict;

// The verdict's line, ended by 0x0A, as the leading bytes of the buffer; how long it is is handed back. The longest has 88.
pub fn write_line(verdict: CertificateVerdict, out: &mut [u8; 96]) -> usize
    ensures value { (result ≡ length (line_of verdict))
        × (out.new ≡ overwritten (line_of verdict) out.old) }
    ensures leading { Leading result out.new }
{
    match verdict {
        Ok(values) => lines::put_accepted(out, values),
        Err(refusal) => lines::put_refused(out, refusal),
    }
}

// The line of a call in the same way, from its answer and the slice that it left, of which it was lent the first `room` values. A room past
// 65 counts as 65.
pub fn write_call(
    answer: InstantVerdict,
    slice: [i64; 65],
    room: usize,
    out: &mut [u8; 1440],
) -> usize
    ensures value { (result ≡ length (call_line answer (take room slice)))
        × (out.new ≡ overwritten (call_line answer (take room slice)) out.old) }
    ensures leading { Leading result out.new }
{
    calls::put_call(out, answer, &slice[..room.min(65)])
}
