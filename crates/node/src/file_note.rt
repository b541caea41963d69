// The note: the bytes before record 0, handed back as a part of the caller's file.
ghost use Rattle.std.specs.Prelude.{◌≡◌, take};
ghost use Rattle.node.specs.Note.{note_length};

use crate::reading::verdict;

// How long the note is; 0 where rules 1 to 8 or 23 refuse the file.
pub fn note_length(file: &[u8]) -> usize
    ensures { result ≡ note_length file.now }
{
    match verdict(file) {
        Ok(node) => file.len() - (16 + 16 * node.streams),
        Err(_) => 0,
    }
}

// The note itself.
pub fn note(file: &[u8]) -> &[u8]
    ensures { result.now ≡ take (note_length file.now) file.now }
{
    let n = note_length(file);
    &file[..n]
}
