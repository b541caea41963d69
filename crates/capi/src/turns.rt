// Checking in turns: the progress record goes in and comes back by value.
ghost use Rattle.std.specs.Prelude.{◌≡◌};
ghost use Rattle.rules.specs.Turns.{turn_of};
ghost use Rattle.rules.specs.Versions.{version2};
ghost use Rattle.certificate.specs.Turned.{begun};
ghost use Rattle.capi.specs.Answers.{told_turn};

use crate::told::Told;
use certificate::Progress;

// A turn: its answer in numbers, the record and the number checked.
#[repr(C)]
#[derive(Clone, Copy)]
pub struct ToldTurn {
    pub answer: Told,
    pub progress: Progress,
    pub checked: usize,
}

// A record before all lines.
#[unsafe(no_mangle)]
pub extern "C" fn conuhawe_turns_begin() -> Progress
    ensures { result ≡ begun }
{
    certificate::begin()
}

// A turn on a node file and a certificate.
#[tactic(auto, unfolding(crate::specs::Answers::told_turn))]
#[unsafe(no_mangle)]
pub extern "C" fn conuhawe_turn(
    node: &[u8],
    cert: &[u8],
    progress: Progress,
    quota: usize,
) -> ToldTurn
    ensures { result ≡ told_turn (turn_of version2 node.now cert.now progress.line quota) }
{
    let t = certificate::turn(node, cert, progress, quota);
    ToldTurn {
        answer: t.verdict.into(),
        progress: t.progress,
        checked: t.checked,
    }
}
