// The certificate checker: the whole file, from its opening through turns over its lines to the verdict.
#![tactic(auto)]

mod checker;
mod constraint_rules;
mod file_note;
mod frame;
mod parts;
mod reading;
mod refusals;
mod turned;
mod types;

pub use file_note::{note, note_length};
pub use reading::{turn, verdict};
pub use turned::{Progress, Turned, begin};
