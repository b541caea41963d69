// Certificate files: their fields, the rules of the trailer, and constraints as linear forms.
#![tactic(auto)]

mod bytes;
mod layout;
mod rules;
mod variables;

pub use layout::{
    ConstraintHead, LineHead, Term, Trailer, block_at, constraint_head, line_head, literal_at,
    multiplier_at, term_at, trailer_of,
};
pub use rules::{counts_ok, distance_ok, fixed_ok, type_at};
pub use variables::var;
