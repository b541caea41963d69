// Rule 17: equation lines.
ghost use Rattle.std.specs.Prelude.{◌+◌, ◌≤◌, ◌≡◌, length};
ghost use Rattle.node.specs.Equations.{type_at, equation_at};
ghost use Rattle.node.specs.Layout.{records_of};
ghost use Rattle.constraints.specs.Layout.{line_at, constraints_from};
ghost use Rattle.rules.specs.Lines.{position_of, equation_in};
ghost use Rattle.rules.specs.Versions.{version2};
ghost use Rattle.matching.specs.Content.{Readable};
ghost use Rattle.lines.specs.Constants.{ConstantsLimited};

use crate::frame::Frame;
use clauses::clause_of;
use constraints::line_head;
use matching::is_clause;
use node::{equation_among, type_among};
use rules::Position;

// Where offset q of a part stands, whose first offset stands at `opening`.
fn position_of(opening: Position, q: u16) -> Position
    ensures { result ≡ position_of opening q }
{
    if q == 0 { opening } else { Position::Inner }
}

// Rule 17, of the line at an offset: clause r of stream p at offset q, which is below `offsets`. It reads the line's head itself: handed
// to a call of this size, the head goes through memory, which took a tenth longer.
pub fn equation_ok(
    node: &[u8],
    cert: &[u8],
    f: Frame,
    at: usize,
    offsets: usize,
    opening: Position,
) -> bool
    requires readable { Readable cert.now f.start f.constraints × (at + 80 ≤ length cert.now) }
    requires constants_limited { ConstantsLimited node.now f.streams × (offsets ≤ 9) × (f.streams ≡ records_of node.now) }
    ensures { result ≡ equation_in version2 f.streams (type_at node.now) (equation_at node.now) (constraints_from cert.now f.start) f.constraints offsets opening (line_at cert.now at) }
{
    let n = f.streams;
    let h = line_head(cert, at);
    let p = h.p as usize;
    let q = h.q as usize;
    if !((p < n) & (q < offsets)) {
        return false;
    }
    let place = position_of(opening, h.q);
    match clause_of(
        type_among(node, n, p),
        equation_among(node, n, p),
        place,
        q as u8,
        h.p,
        h.r,
    ) {
        Some(c) => is_clause(cert, f.start, f.constraints, at, c),
        None => false,
    }
}
