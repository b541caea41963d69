// Sessions: a node run instant by instant over a record that the caller lends.
#![tactic(auto)]

mod beginning;
mod committing;
mod holding;
mod lent;
mod making;
mod outcomes;
mod records;
mod refusals;

pub use beginning::{BegunSession, begun};
pub use committing::committed;
pub use lent::{begin, commit, instant, trial};
pub use making::{Stepped, step, tried};

// The session record: the node file without its note and its length, whether an instant was committed, the last committed values, and
// a trial's where one is held.
// C and Rust lend it too: any bytes make a record, and it has no padding, for the last field fills it up.
#[repr(C)]
#[derive(Clone, Copy)]
pub struct Session {
    pub length: usize,
    pub last: [i64; 64],
    pub trial: [i64; 64],
    pub file: [u8; 1040],
    pub started: u8,
    pub held: u8,
    pub spare: [u8; 6],
}
