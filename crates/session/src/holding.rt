// Whether a record holds a node.
ghost use Rattle.std.specs.Prelude.{◌≡◌, ◌||◌, take, option_map, IfSome};
ghost use Rattle.answers.specs.Checks.{every};
ghost use Rattle.node.specs.Layout.{records_of, streams_of};
ghost use Rattle.node.specs.Reads.{order_of};
ghost use Rattle.session.specs.Records.{held_file, value_typed};
ghost use Rattle.session.specs.Working.{node_held};

use crate::Session;
use node::{read, type_among};
use streams::{is_typed, number_at};

// The node that a record holds: how many streams it has, and the order of its evaluation: stream `order[k]` is worked out as number k.
#[derive(Clone, Copy)]
pub struct Held {
    pub streams: usize,
    pub order: [usize; 64],
}

// Each of the first n values fits its stream's type, in a file of n.
fn are_typed(file: &[u8], values: &[i64], n: usize) -> bool
    requires { n ≡ records_of file.now }
    ensures { result ≡ every (value_typed file.now values.now) n }
{
    for i in 0..n {
        if !is_typed(type_among(file, n, i), number_at(values, i)) {
            return false;
        }
    }
    true
}

// The same, unless there are no values to look at.
fn typed_unless(none: bool, file: &[u8], values: &[i64], n: usize) -> bool
    requires { n ≡ records_of file.now }
    ensures { result ≡ (none || every (value_typed file.now values.now) n) }
{
    none || are_typed(file, values, n)
}

// The node of a record. A record is anyone's to fill: its length is looked at before its file is.
pub fn node_held(s: &Session) -> Option<Held>
    ensures node_value { option_map (λ held. held.streams) result ≡ node_held s.now }
    ensures order_value { IfSome result (λ held. take (streams_of (held_file s.now)) held.order ≡ order_of (held_file s.now)) }
{
    if 1040 < s.length {
        return None;
    }
    let file = &s.file[..s.length];
    let Ok(node) = read(file) else {
        return None;
    };
    let streams = node.values.streams;
    let order = node.order;
    if typed_unless(s.started == 0, file, &s.last, streams)
        && typed_unless(s.held == 0, file, &s.trial, streams)
    {
        Some(Held { streams, order })
    } else {
        None
    }
}
