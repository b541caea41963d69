// A field is read where its caller has shown that it lies within the file.
ghost use Rattle.std.specs.Prelude.{ℕ, ◌+◌, ◌≤◌, ◌≡◌, List, length, drop, take};
ghost use Rattle.fields.specs.Fields.{u16_at, u32_at, u64_at, i32_at, i64_at};

use crate::signed::{i32_of, i64_of};
use crate::unsigned::{u16_of, u32_of, u64_of};

// A type that a file's fields have.
pub trait Field: Sized {
    // How many bytes a field takes.
    ghost size: { ℕ };

    // The number that stands in a file at an offset.
    ghost value_at: { List ℕ → ℕ → Self };

    fn read_at(s: &[u8], at: usize) -> Self
        requires { at + size ≤ length s.now }
        ensures { result ≡ value_at s.now at };
}

fn bytes_at<const N: usize>(s: &[u8], at: usize) -> [u8; N]
    requires { at + N ≤ length s.now }
    ensures { result ≡ take N (drop at s.now) }
{
    s[at..at + N].try_into().unwrap()
}

impl Field for u16 {
    ghost size = { 2 };

    ghost value_at = { u16_at };

    fn read_at(s: &[u8], at: usize) -> u16 {
        let bytes: [u8; 2] = bytes_at(s, at);
        u16_of(bytes[0], bytes[1])
    }
}

impl Field for u32 {
    ghost size = { 4 };

    ghost value_at = { u32_at };

    fn read_at(s: &[u8], at: usize) -> u32 {
        let bytes: [u8; 4] = bytes_at(s, at);
        u32_of(u16_of(bytes[0], bytes[1]), u16_of(bytes[2], bytes[3]))
    }
}

impl Field for u64 {
    ghost size = { 8 };

    ghost value_at = { u64_at };

    fn read_at(s: &[u8], at: usize) -> u64 {
        let bytes: [u8; 8] = bytes_at(s, at);
        let low = u32_of(u16_of(bytes[0], bytes[1]), u16_of(bytes[2], bytes[3]));
        let high = u32_of(u16_of(bytes[4], bytes[5]), u16_of(bytes[6], bytes[7]));
        u64_of(low, high)
    }
}

impl Field for i32 {
    ghost size = { 4 };

    ghost value_at = { i32_at };

    fn read_at(s: &[u8], at: usize) -> i32 {
        i32_of(u32::read_at(s, at))
    }
}

impl Field for i64 {
    ghost size = { 8 };

    ghost value_at = { i64_at };

    fn read_at(s: &[u8], at: usize) -> i64 {
        i64_of(u64::read_at(s, at))
    }
}
