// An equation line's literals against those of a clause: how rule 17 compares.
#![tactic(auto)]

mod clause;
mod content;
mod factors;
mod patterns;

pub use clause::is_clause;
