// A progress record, and what a turn gives: its verdict, the record and the number checked.
ghost use Rattle.std.specs.Prelude.{◌+◌, ◌≡◌};
ghost use Rattle.std.specs.Int.{w64};
ghost use Rattle.std.proofs.Common.{Fits};
ghost use Rattle.answers.specs.Answer.{final};
ghost use Rattle.rules.specs.Turns.{moved};
ghost use Rattle.certificate.specs.Turned.{begun, as_turn};

use answers::{Refusal, TurnVerdict};

// The number of the next line to check, by value.
#[repr(C)]
#[derive(Clone, Copy)]
pub struct Progress {
    pub line: usize,
}

#[derive(Clone, Copy)]
pub struct Turned {
    pub verdict: TurnVerdict,
    pub progress: Progress,
    pub checked: usize,
}

// A record before all lines.
pub fn begin() -> Progress
    ensures { result ≡ begun }
{
    Progress { line: 0 }
}

// A refused turn: the record unmoved, and 0.
pub fn unmoved(progress: Progress, refusal: Refusal) -> Turned
    ensures { as_turn result ≡ moved (final (Err refusal)) progress.line 0 }
{
    Turned {
        verdict: Some(Err(refusal)),
        progress,
        checked: 0,
    }
}

// A turn that is not refused: the record moves on by the n lines that were checked.
pub fn moved_on(progress: Progress, n: usize, verdict: TurnVerdict) -> Turned
    requires { Fits w64 (progress.line + n) }
    ensures { as_turn result ≡ record { answer = verdict; line = progress.line + n; checked = n } }
{
    let line = progress.line + n;
    Turned {
        verdict,
        progress: Progress { line },
        checked: n,
    }
}
