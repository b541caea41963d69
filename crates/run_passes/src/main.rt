// Runs sessions. Arguments come in twos, a node file and a pass file: a session is begun on the node, from a zeroed record, and makes
// each event of the pass in turn, also where the beginning was refused. One line for the beginning, after the pass file's name, and
// one an event: its values or its refusal, and then whether the refusal kept the slice.
#![tactic(auto)]

ghost use Rattle.std.specs.Prelude.{◌≡◌};
ghost use Rattle.session.specs.Events.{after_events};
ghost use Rattle.session.specs.Records.{begun_of};
ghost use Rattle.run_passes.specs.Pass.{events_of};
ghost use Rattle.run_passes.specs.Zeroed.{zeroed as zeroedRecord};

use events::{after_event, begun_on};
use files::{argument_count, argument_file, say_argument};
use session::Session;
use std::rt::{Env, Files};

mod events;
mod pass;

fn zeroed() -> Session
    ensures { result ≡ zeroedRecord }
{
    Session {
        length: 0,
        last: [0i64; 64],
        trial: [0i64; 64],
        file: [0u8; 1040],
        started: 0,
        held: 0,
        spare: [0u8; 6],
    }
}

// The session after all events of a pass, each made in turn on the session that the one before left.
fn run(rt: &impl Print, begun: Session, events: &[u8]) -> Session
    ensures { result ≡ after_events begun (events_of events.now) }
{
    let mut s = begun;
    let mut left = events;
    while let Some((event, rest)) = pass::first(left) {
        s = after_event(rt, s, event);
        left = rest;
    }
    s
}

// A session begun on a node, and then all events of a pass.
fn run_pass(rt: &impl Print, node: &[u8], events: &[u8]) -> Session
    ensures { result ≡ after_events (begun_of node.now zeroedRecord) (events_of events.now) }
{
    run(rt, begun_on(rt, zeroed(), node), events)
}

// The pair that two arguments name.
fn run_pair(rt: &(impl Env + Files + Print), node_number: usize, pass_number: usize) {
    let mut node = [0u8; 65536];
    let mut events = [0u8; 65536];
    say_argument(rt, pass_number);
    let node = argument_file(rt, node_number, &mut node);
    let events = argument_file(rt, pass_number, &mut events);
    run_pass(rt, node, events);
}

// Argument 0 is the program's own name. A last node file without a pass file's name has a pass without events.
fn main(rt: HostRuntime) {
    let pairs = argument_count(&rt) / 2;
    for pair in 0..pairs {
        run_pair(&rt, 2 * pair + 1, 2 * pair + 2);
    }
}
