// The certificate's note, handed back as the leading part of the caller's slice.
ghost use Rattle.std.specs.Prelude.{◌≡◌, take};
ghost use Rattle.rules.specs.Note.{file_ok, note_length};
ghost use Rattle.rules.specs.Versions.{version2};

use crate::frame::start_of;
use constraints::{counts_ok, distance_ok, fixed_ok, trailer_of};
use node::length_ok;

// Rules 11 to 14.
fn file_ok(cert: &[u8]) -> bool
    ensures { result ≡ file_ok version2 cert.now }
{
    let size = cert.len();
    if !length_ok(size) {
        return false;
    }
    let t = trailer_of(cert);
    fixed_ok(t) & counts_ok(t) & distance_ok(t, size)
}

// How long the note is; 0 where rules 11 to 14 refuse the file.
pub fn note_length(cert: &[u8]) -> usize
    ensures { result ≡ note_length version2 cert.now }
{
    if !file_ok(cert) {
        return 0;
    }
    start_of(cert, trailer_of(cert))
}

// The note itself.
pub fn note(cert: &[u8]) -> &[u8]
    ensures { result.now ≡ take (note_length version2 cert.now) cert.now }
{
    let n = note_length(cert);
    &cert[..n]
}
