// Files read into a lent buffer, and the program's arguments, which name them.
#![tactic(auto)]

ghost use Rattle.std.specs.Prelude.{◌≡◌, drop};
ghost use Rattle.std.specs.Counts.{IsPrefixLen};
ghost use Rattle.files.specs.Put.{Put};

use std::fs::File;
use std::io::Read;
use std::rt::Files;
use std::str;

mod arguments;

pub use arguments::{argument, argument_count, argument_file, say_argument};

// The bytes at the start of the buffer, as many as it holds, and how many they are.
fn put(bytes: &[u8], buffer: &mut [u8]) -> usize
    ensures { Put bytes.now buffer.old buffer.new result }
{
    let n = bytes.len().min(buffer.len());
    buffer[..n].copy_from_slice(&bytes[..n]);
    n
}

// Reads until the buffer is full, the input ends or a read fails, and says how many bytes it put at the start of the buffer.
// How far it goes on is what each read gave, so no `for` fits.
fn read_full(input: &mut impl Read, buffer: &mut [u8]) -> usize
    ensures { IsPrefixLen result buffer.new }
{
    let mut done = 0;
    while done < buffer.len() {
        let n = input.read(&mut buffer[done..]).unwrap_or(0);
        if n == 0 {
            break;
        }
        done += n;
    }
    done
}

// The file of that name, opened for reading. std names files by text, so none has a name that is not UTF-8.
fn opened<R: Files>(rt: &R, path: &[u8]) -> Option<R::File> {
    let name = str::from_utf8(path).ok()?;
    File::open(rt, name).ok()
}

// Reads a file's first bytes, as many as the buffer holds and at most 65,536, and says how many they are. Which bytes they are, and how
// many, is the file's and the operating system's; what the buffer holds after them is as it was. A file that cannot be opened or read
// is empty.
pub fn read_file(rt: &impl Files, path: &[u8], buffer: &mut [u8]) -> usize
    ensures prefix_len { IsPrefixLen result buffer.new }
    ensures buffer_unchanged { drop result buffer.new ≡ drop result buffer.old }
{
    let Some(mut file) = opened(rt, path) else {
        return 0;
    };
    let mut bytes = [0u8; 65536];
    let n = read_full(&mut file, &mut bytes);
    put(&bytes[..n], buffer)
}
