// The checks of lines and parts, put together to turns.
ghost use Rattle.std.specs.Prelude.{ℕ, ◌+◌, ◌*◌, ◌≤◌, ◌≡◌, List, length};
ghost use Rattle.constraints.specs.Rules.{types_of};
ghost use Rattle.rules.specs.Turns.{due_of, next_lines, after_lines, lines_turn, moved};
ghost use Rattle.rules.specs.Verdict.{types_of_node, parts_verdict};
ghost use Rattle.rules.specs.Versions.{version2};
ghost use Rattle.lines.specs.Checking.{Checking};
ghost use Rattle.lines.specs.Frame.{frame_of};
ghost use Rattle.certificate.specs.Turned.{as_turn};

use crate::parts::has_empty;
use crate::refusals;
use crate::turned::{Progress, Turned, moved_on, unmoved};
use answers::{CertificateValues, CertificateVerdict, Place, Refusal, check};
use lines::{Frame, line_fault};

// Rule 21, after all lines, whatever the node.
fn parts_verdict(cert: &[u8], f: Frame) -> CertificateVerdict
    requires f_value { f ≡ frame_of cert.now f.streams f.property }
    requires step_in_bounds { f.lines + 80 * (f.base + f.step) ≤ length cert.now }
    ensures { (node : List ℕ) → result ≡ parts_verdict version2 node cert.now }
{
    let base = f.base;
    let step = f.step;
    check(
        has_empty(cert, f.lines, 0, base),
        refusals::NO_EMPTY_LINE,
        Place::Base,
    )?;
    check(
        has_empty(cert, f.lines, base, step),
        refusals::NO_EMPTY_LINE,
        Place::Step,
    )?;
    let depth = f.depth as usize;
    Ok(CertificateValues { depth, base, step })
}

// Rules 16 to 20 and 22, of n lines from a line on, one at a time up to the first refused. One array of sums serves all, since each
// line that passes leaves it at zero.
fn next_lines(
    node: &[u8],
    cert: &[u8],
    types: &[u8],
    f: Frame,
    line: usize,
    n: usize,
) -> Result<(), Refusal>
    requires checking { Checking node.now cert.now f × ((x : ℕ) → types_of types.now x ≡ types_of_node node.now x) }
    requires n_bound { line + n ≤ f.base + f.step }
    ensures { result ≡ next_lines version2 node.now cert.now line n }
{
    let mut sums = [0i64; 576];
    for i in line..line + n {
        line_fault(&mut sums, node, cert, types, f, i)?;
    }
    Ok(())
}

// After n lines that passed: lines are left, or rule 21, whatever the node.
fn after_lines(cert: &[u8], f: Frame, progress: Progress, n: usize) -> Turned
    requires f_value { f ≡ frame_of cert.now f.streams f.property }
    requires step_in_bounds { (f.lines + 80 * (f.base + f.step) ≤ length cert.now) × (progress.line + n ≤ f.base + f.step) }
    ensures { (node : List ℕ) → as_turn result ≡ moved (after_lines version2 node cert.now (progress.line + n)) progress.line n }
{
    if progress.line + n < f.base + f.step {
        return moved_on(progress, n, None);
    }
    match parts_verdict(cert, f) {
        Ok(values) => moved_on(progress, n, Some(Ok(values))),
        Err(refusal) => unmoved(progress, refusal),
    }
}

// Rule 55, then the lines of a turn and what is after them.
pub fn lines_turn(
    node: &[u8],
    cert: &[u8],
    types: &[u8],
    f: Frame,
    progress: Progress,
    quota: usize,
) -> Turned
    requires { Checking node.now cert.now f × ((x : ℕ) → types_of types.now x ≡ types_of_node node.now x) }
    ensures { as_turn result ≡ moved (lines_turn version2 node.now cert.now progress.line quota) progress.line (due_of cert.now progress.line quota) }
{
    let lines = f.base + f.step;
    let line = progress.line;
    if lines < line {
        return unmoved(
            progress,
            Refusal {
                number: refusals::PROGRESS,
                place: Place::File,
            },
        );
    }
    // "that many or all that are left"
    let n = quota.min(lines - line);
    match next_lines(node, cert, types, f, line, n) {
        Ok(()) => after_lines(cert, f, progress, n),
        Err(refusal) => unmoved(progress, refusal),
    }
}
