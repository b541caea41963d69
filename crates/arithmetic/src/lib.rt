// Sums of constraints: rules 20 and 22, of arithmetic lines and of cuts.
#![tactic(auto)]

mod contradictions;
mod cuts;
mod multipliers;
mod sums;
mod terms;

pub use contradictions::arithmetic_ok;
pub use cuts::cut_ok;
pub use multipliers::is_multiplier;
