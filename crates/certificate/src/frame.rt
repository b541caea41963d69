// What the checks of lines take of both files, read once.
ghost use Rattle.std.specs.Prelude.{◌≤◌, ◌≡◌, length};
ghost use Rattle.constraints.specs.Layout.{trailer_of, size_of, start_of};
ghost use Rattle.lines.specs.Frame.{frame_of};

use constraints::{Trailer, block_at};
use lines::Frame;

// Where constraint 0 stands, which is where the note ends.
pub fn start_of(cert: &[u8], t: Trailer) -> usize
    requires { (t ≡ trailer_of cert.now) × (size_of (trailer_of cert.now) ≤ length cert.now) }
    ensures { result ≡ start_of cert.now }
{
    let constraints = t.constraints as usize;
    let base = t.base as usize;
    let step = t.step as usize;
    cert.len() - (16 + 80 * (constraints + base + step))
}

// What was read of both files, where rules 11 to 15 have passed.
pub fn frame_of(cert: &[u8], t: Trailer, streams: usize, property: u16) -> Frame
    requires { (t ≡ trailer_of cert.now) × (size_of (trailer_of cert.now) ≤ length cert.now) }
    ensures { result ≡ frame_of cert.now streams property }
{
    let start = start_of(cert, t);
    let constraints = t.constraints as usize;
    Frame {
        depth: t.depth,
        constraints,
        base: t.base as usize,
        step: t.step as usize,
        start,
        lines: block_at(start, constraints),
        streams,
        property,
    }
}
