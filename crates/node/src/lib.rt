// The node reader. A node file is a note, n records and a trailer; record i defines stream i. Every published call is
// total: whatever bytes the file holds, it answers by the definition that its contract cites.
#![tactic(auto)]

mod equation;
mod file_note;
mod inputs;
mod layout;
mod ordering;
mod reading;
mod refusals;
mod rules;
mod table;

pub use equation::{Equation, StreamType, equation_among, type_among};
pub use file_note::{note, note_length};
pub use inputs::{input_count, is_input_among, with_record};
pub use layout::records_of;
pub use reading::{ReadNode, read, verdict};
pub use rules::length_ok;
