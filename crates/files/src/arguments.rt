// The program's arguments, as bytes that need not be text. Argument 0 is the program's own name.
ghost use Rattle.std.specs.Prelude.{◌≤◌, length};
ghost use Rattle.std.specs.Counts.{IsPrefixLen};

use crate::read_file;
use std::env::FillError;
use std::rt::{Env, Files};

// How many arguments there are, the program's own name among them.
pub fn argument_count(rt: &impl Env) -> usize {
    for i in 0..usize::MAX {
        if let Err(FillError::NotPresent) = rt.arg(i, &mut []) {
            return i;
        }
    }
    usize::MAX
}

// Puts argument i at the start of the buffer and says how long it is. One that is missing or longer than the buffer counts as empty.
pub fn argument(rt: &impl Env, i: usize, buffer: &mut [u8]) -> usize
    ensures { IsPrefixLen result buffer.new }
{
    rt.arg(i, buffer).unwrap_or(0)
}

// The file that argument i names, read into the buffer.
pub fn argument_file<'a>(rt: &(impl Env + Files), i: usize, buffer: &'a mut [u8]) -> &'a [u8]
    ensures { length result.now ≤ length buffer.old }
{
    let mut path = [0u8; 4096];
    let length = argument(rt, i, &mut path);
    let n = read_file(rt, &path[..length], buffer);
    &buffer[..n]
}

// Prints argument i, before what is said of it. A write that fails is passed over.
pub fn say_argument(rt: &(impl Env + Print), i: usize) {
    let mut text = [0u8; 4096];
    let length = argument(rt, i, &mut text);
    let _ = rt.write_all(&text[..length]);
    let _ = rt.write_all(b": ");
}
