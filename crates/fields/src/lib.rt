// The fields of a file: whole numbers of two, four and eight bytes, little-endian, and two's complement where signed. Each is put
// together from the bytes, halves or words that its file's layout has read, or is read at an offset.
#![tactic(auto)]

mod field;
mod signed;
mod unsigned;

pub use field::Field;
pub use signed::{i32_of, i64_of};
pub use unsigned::{u16_of, u32_of, u64_of};
