// Checks certificates in turns. Arguments come in threes, a node file, a certificate and a turns file (specs/TurnsFile.antt): each turn takes the
// record that the one before gave. One line for the record at first, after the turns file's name, and one a turn.
#![tactic(auto)]

ghost use Rattle.std.specs.Prelude.{◌≡◌};
ghost use Rattle.rules.specs.Turns.{turn_of, line_after};
ghost use Rattle.rules.specs.Versions.{version2};
ghost use Rattle.check_turns.specs.TurnsFile.{first_line, quotas_of};

use certificate::{Progress, turn};
use files::{argument_count, argument_file, say_argument};
use numbers::unsigned_at;
use std::rt::{Env, Files};

// The record after a turn, whose line is printed: its quota, the number checked, the line of its record and its verdict. Here and below a
// write that fails is passed over.
fn after_turn(
    rt: &impl Print,
    node: &[u8],
    cert: &[u8],
    progress: Progress,
    quota: usize,
) -> Progress
    ensures { result.line ≡ (turn_of version2 node.now cert.now progress.line quota).line }
{
    let t = turn(node, cert, progress, quota);
    let checked = t.checked;
    let line = t.progress.line;
    let _ = print!(rt; "quota {quota}: checked {checked} to line {line}: ");
    match t.verdict {
        Some(verdict) => report::say_verdict(rt, verdict),
        None => {
            let _ = println!(rt; "unfinished");
        }
    }
    t.progress
}

// The record after a turn for each quota of a turns file, printed first as the first turn takes it.
fn run(rt: &impl Print, node: &[u8], cert: &[u8], turns: &[u8]) -> Progress
    ensures { result.line ≡ line_after version2 node.now cert.now (first_line turns.now) (quotas_of turns.now) }
{
    let line = unsigned_at(turns, 0) as usize;
    let _ = println!(rt; "from line {line}");
    let mut progress = Progress { line };
    for i in 1..turns.len() / 8 {
        progress = after_turn(rt, node, cert, progress, unsigned_at(turns, i) as usize);
    }
    progress
}

// The three that arguments name.
fn run_three(
    rt: &(impl Env + Files + Print),
    node_number: usize,
    cert_number: usize,
    turns_number: usize,
) {
    let mut node = [0u8; 65536];
    let mut cert = [0u8; 65536];
    let mut turns = [0u8; 65536];
    say_argument(rt, turns_number);
    let node = argument_file(rt, node_number, &mut node);
    let cert = argument_file(rt, cert_number, &mut cert);
    let turns = argument_file(rt, turns_number, &mut turns);
    run(rt, node, cert, turns);
}

// Argument 0 is the program's own name. A last node file and certificate without a turns file's name have no turns; a last name alone is
// ignored.
fn main(rt: HostRuntime) {
    let threes = argument_count(&rt) / 3;
    for three in 0..threes {
        run_three(&rt, 3 * three + 1, 3 * three + 2, 3 * three + 3);
    }
}
