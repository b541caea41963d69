// Checking in turns.
ghost use Rattle.std.specs.Prelude.{◌≡◌};
ghost use Rattle.rules.specs.Turns.{turn_of};
ghost use Rattle.rules.specs.Versions.{version2};
ghost use Rattle.certificate.specs.Turned.{begun};
ghost use Rattle.capi.specs.Answers.{told_turn};

use capi::ToldTurn;
use certificate::Progress;

// A record before all lines.
#[unsafe(no_mangle)]
pub extern "C" fn conuhawe_turns_begin() -> Progress
    ensures { result ≡ begun }
{
    capi::conuhawe_turns_begin()
}

// A turn on a node file and a certificate.
#[unsafe(no_mangle)]
pub extern "C" fn conuhawe_turn(
    node: &[u8],
    cert: &[u8],
    progress: Progress,
    quota: usize,
) -> ToldTurn
    ensures { result ≡ told_turn (turn_of version2 node.now cert.now progress.line quota) }
{
    capi::conuhawe_turn(node, cert, progress, quota)
}
