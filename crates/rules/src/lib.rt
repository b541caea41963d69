// The rules of certificates: the literals and clauses that they speak of. All else here is definitions and laws.
#![tactic(auto)]

mod pattern;

pub use pattern::{Clause, Linear, Pattern, Position};
