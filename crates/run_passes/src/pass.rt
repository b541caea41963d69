// A pass file is a list of events, each: u16 kind, u16 input count m, u16 slice length r, m signed 64-bit inputs; all little-endian. A
// cut-off last event is ignored. A count or a length over 65 is made as 65, which is one more than any node has; the inputs past it are
// skipped. A beginning has its file where the inputs would be, cut off after r bytes.
ghost use Rattle.std.specs.Prelude.{◌<◌, ◌≤◌, ◌≡◌, MatchOption, length};
ghost use Rattle.std.specs.List.{IsSplitAt};
ghost use Rattle.run_passes.specs.Pass.{first_size, count_at, first_inputs, file_of, event_by, event_of, IsLong};

use fields::Field;
use numbers::read_numbers;

// What an event is.
#[derive(Clone, Copy)]
pub enum Kind {
    OldCall,
    Trial,
    Commit,
    Beginning,
}

// The first event of a list and the events after it, where a whole event is there.
pub fn first(events: &[u8]) -> Option<(&[u8], &[u8])>
    ensures { MatchOption result
        (first_size events.now ≡ 0)
        (λ p. (0 < first_size events.now) × IsSplitAt events.now (first_size events.now) p.0.now p.1.now) }
{
    if events.len() < 6 {
        return None;
    }
    events.split_at_checked(6 + 8 * u16::read_at(events, 2) as usize)
}

// The number of its kind is 1 for a trial, 2 for a commit, 3 for a beginning and any other for the old call.
pub fn kind_of(event: &[u8]) -> Kind
    ensures event { event_by result event.now ≡ event_of event.now }
    ensures long { IsLong result event.now }
{
    if event.len() < 6 {
        return Kind::OldCall;
    }
    match u16::read_at(event, 0) {
        1 => Kind::Trial,
        2 => Kind::Commit,
        3 => Kind::Beginning,
        _ => Kind::OldCall,
    }
}

fn count_at(event: &[u8], at: usize) -> usize
    requires { at ≤ 4 }
    ensures { result ≡ count_at event.now at }
{
    if event.len() < 6 {
        return 0;
    }
    (u16::read_at(event, at) as usize).min(65)
}

pub fn input_count(event: &[u8]) -> usize
    ensures { result ≡ count_at event.now 2 }
{
    count_at(event, 2)
}

pub fn slice_length(event: &[u8]) -> usize
    ensures { result ≡ count_at event.now 4 }
{
    count_at(event, 4)
}

// The first inputs that the event has, at most 65, and zeros after them.
pub fn numbers(event: &[u8]) -> [i64; 65]
    ensures { result ≡ first_inputs event.now 65 }
{
    let mut inputs = [0i64; 65];
    if 6 <= event.len() {
        read_numbers(&event[6..], &mut inputs);
    }
    inputs
}

// The file of a beginning.
pub fn file(event: &[u8]) -> &[u8]
    requires { 6 ≤ length event.now }
    ensures { result.now ≡ file_of event.now }
{
    let room = u16::read_at(event, 4) as usize;
    let bytes = &event[6..];
    &bytes[..room.min(bytes.len())]
}
