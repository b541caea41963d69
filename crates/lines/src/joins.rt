// Rule 19: joins.
ghost use Rattle.std.specs.Prelude.{◌+◌, ◌*◌, ◌<◌, ◌≤◌, ◌≡◌, length};
ghost use Rattle.constraints.specs.Layout.{line_at, listed_in};
ghost use Rattle.rules.specs.Joins.{joins, join_ok};
ghost use Rattle.lines.specs.Frame.{lines_at};

use crate::search::{covers, stands_from};
use constraints::{block_at, line_head};
use literals::Literal;

// How many literals the line at an offset lists: none past the twelfth, whatever its count byte says. A line that is cited may never
// have been checked, since a progress record may say anything.
fn listed_at(file: &[u8], at: usize) -> usize
    requires { at + 80 ≤ length file.now }
    ensures { result ≡ listed_in (line_at file.now at) }
{
    let count = line_head(file, at).count as usize;
    count.min(12)
}

// Literal r stands in the line at p and its opposite in the line at q, and what is left of both stands in the line at an offset.
fn is_join(file: &[u8], p: usize, q: usize, r: Literal, at: usize) -> bool
    requires { (p + 80 ≤ length file.now) × (q + 80 ≤ length file.now) × (at + 80 ≤ length file.now) }
    ensures { result ≡ joins (line_at file.now p) (line_at file.now q) r.0 (line_at file.now at) }
{
    let s = r.opposite();
    let in_p = listed_at(file, p);
    let in_q = listed_at(file, q);
    let here = listed_at(file, at);
    if !(stands_from(file, p, in_p, r, 0) & stands_from(file, q, in_q, s, 0)) {
        return false;
    }
    covers(file, p, in_p, r, at, here) & covers(file, q, in_q, s, at, here)
}

// Rule 19, of line i, where line 0 stands at an offset and the part begins at line `from`.
pub fn join_ok(file: &[u8], lines: usize, from: usize, i: usize) -> bool
    requires { lines + 80 * (i + 1) ≤ length file.now }
    ensures { result ≡ join_ok (lines_at file.now lines) from i }
{
    let at = block_at(lines, i);
    let head = line_head(file, at);
    let p = head.p as usize;
    let q = head.q as usize;
    if !((from <= p) & (p < i) & ((from <= q) & (q < i))) {
        return false;
    }
    let r = Literal(head.r as usize);
    is_join(file, block_at(lines, p), block_at(lines, q), r, at)
}
