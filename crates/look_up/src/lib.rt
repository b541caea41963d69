// Looking up one stream in a short pass: "an engine that follows the equations down from the wanted stream and instant".
#![tactic(auto)]

mod answering;
mod filling;
mod history;
mod refusals;
mod table;
mod visits;

pub use answering::look_up;
