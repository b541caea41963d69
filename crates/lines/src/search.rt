// Literals looked up in the lines of a certificate.
ghost use Rattle.std.specs.Prelude.{◌+◌, ◌-◌, ◌≤◌, ◌≡◌, ◌||◌, eqb, length};
ghost use Rattle.answers.specs.Checks.{every};
ghost use Rattle.constraints.specs.Layout.{literal_at};
ghost use Rattle.rules.specs.Joins.{stands_from, covered_by};

use constraints::literal_at;
use literals::Literal;

// The search for a literal: whether l stands among the literals from j on of the line at an offset, which lists count. One
// walk, so that a debugger shows a call of this for each search and not for each literal.
pub fn stands_from(file: &[u8], at: usize, count: usize, l: Literal, j: usize) -> bool
    requires { (at + 80 ≤ length file.now) × (count ≤ 12) }
    ensures { result ≡ stands_from (literal_at file.now at) l.0 j (count - j) }
{
    (j..count).any(|i| literal_at(file, at, i).0 == l.0)
}

// A literal is the one left out, or stands in the line at an offset.
fn is_covered(file: &[u8], at: usize, count: usize, l: Literal, but: Literal) -> bool
    requires { (at + 80 ≤ length file.now) × (count ≤ 12) }
    ensures { result ≡ (eqb l.0 but.0 || stands_from (literal_at file.now at) l.0 0 count) }
{
    l.0 == but.0 || stands_from(file, at, count, l, 0)
}

// Each literal of the line at an offset but one stands in another line.
pub fn covers(
    file: &[u8],
    at: usize,
    count: usize,
    but: Literal,
    other: usize,
    others: usize,
) -> bool
    requires { (at + 80 ≤ length file.now) × (count ≤ 12) × (other + 80 ≤ length file.now) × (others ≤ 12) }
    ensures { result ≡ every (covered_by (literal_at file.now at) but.0 (literal_at file.now other) others) count }
{
    (0..count).all(|j| is_covered(file, other, others, literal_at(file, at, j), but))
}
