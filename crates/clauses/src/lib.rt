// The clauses of each operator: what an equation line may say.
#![tactic(auto)]

mod operators;
mod parts;
mod window;

pub use window::clause_of;
