// The rules of one line, 16 to 20 and 22, whatever the lines before it hold.
#![tactic(auto)]

mod equations;
mod faults;
mod frame;
mod joins;
mod property;
mod refusals;
mod search;
mod shape;

pub use faults::line_fault;
pub use frame::Frame;
