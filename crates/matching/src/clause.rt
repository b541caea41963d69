// A line's literals against those of a clause.
ghost use Rattle.std.specs.Prelude.{◌+◌, ◌≤◌, ◌≡◌, length};
ghost use Rattle.constraints.specs.Layout.{line_at, constraints_from};
ghost use Rattle.rules.specs.Lines.{clause_is};
ghost use Rattle.clauses.specs.Limits.{SmallPattern};
ghost use Rattle.matching.specs.Content.{Readable};

use crate::patterns::matches;
use constraints::{line_head, literal_at};
use rules::Clause;

// The literals of the line at an offset are those of a clause, in its order.
pub fn is_clause(cert: &[u8], start: usize, m: usize, at: usize, c: Clause) -> bool
    requires readable { Readable cert.now start m × (at + 80 ≤ length cert.now) }
    requires small_pattern { SmallPattern c.first × SmallPattern c.second × SmallPattern c.third }
    ensures { result ≡ clause_is (constraints_from cert.now start) m (line_at cert.now at) c }
{
    let first = c.first;
    let second = c.second;
    let third = c.third;
    let count = line_head(cert, at).count as usize;
    if !((count == c.count) & matches(cert, start, m, first, literal_at(cert, at, 0))) {
        return false;
    }
    if c.count <= 1 {
        return true;
    }
    if !matches(cert, start, m, second, literal_at(cert, at, 1)) {
        return false;
    }
    if c.count <= 2 {
        return true;
    }
    matches(cert, start, m, third, literal_at(cert, at, 2))
}
