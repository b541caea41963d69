// The exports: each is the call of `capi` of its name, with the same clauses.
#![tactic(auto)]

mod files;
mod lent;
mod look_ups;
mod turns;

pub use files::{
    conuhawe_certificate_note, conuhawe_check, conuhawe_node_note, conuhawe_ranges, conuhawe_read,
};
pub use lent::{conuhawe_begin, conuhawe_commit, conuhawe_instant, conuhawe_trial};
pub use look_ups::conuhawe_look_up;
pub use turns::{conuhawe_turn, conuhawe_turns_begin};
