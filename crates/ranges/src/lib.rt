// Nodes for the flight list: a node comes with a range for each int stream, and one that is listed never stops for size.
#![tactic(auto)]

mod listing;
mod refusals;
mod results;
mod table;

pub use listing::listed;
