// The calls as C and Rust link them: over `node`, `session`, `certificate`, `ranges` and `look_up`, with answers in numbers.
#![tactic(auto)]

mod files;
mod lent;
mod look_ups;
mod told;
mod turns;

pub use files::{
    conuhawe_certificate_note, conuhawe_check, conuhawe_node_note, conuhawe_ranges, conuhawe_read,
};
pub use lent::{conuhawe_begin, conuhawe_commit, conuhawe_instant, conuhawe_trial};
pub use look_ups::{ToldLookUp, conuhawe_look_up};
pub use told::Told;
pub use turns::{ToldTurn, conuhawe_turn, conuhawe_turns_begin};
