// Rule 18: property lines.
ghost use Rattle.std.specs.Prelude.{◌+◌, ◌<◌, ◌≤◌, ◌≡◌, length};
ghost use Rattle.answers.specs.Checks.{every};
ghost use Rattle.constraints.specs.Layout.{literal_at, line_with};
ghost use Rattle.rules.specs.Lines.{not_property_at, base_property_ok, step_property_ok};

use constraints::{LineHead, literal_at, var};
use literals::Literal;

// The first n literals of the line at an offset are not-prop at offsets 0 to n - 1.
fn are_not_property(file: &[u8], at: usize, n: usize, prop: u16) -> bool
    requires { (at + 80 ≤ length file.now) × (n ≤ 9) }
    ensures { result ≡ every (not_property_at prop (literal_at file.now at)) n }
{
    (0..n).all(|j| {
        let not_prop = Literal::negative(var(j as u8, prop));
        literal_at(file, at, j).0 == not_prop.0
    })
}

// A property line of the base, at depth k: it covers offset k too.
pub fn base_property_ok(file: &[u8], at: usize, h: LineHead, k: u8, prop: u16) -> bool
    requires { (at + 80 ≤ length file.now) × (k ≤ 8) }
    ensures { result ≡ base_property_ok (k + 1) prop (line_with file.now at h) }
{
    let n = k + 1;
    (h.q == 0) & (h.count == n) & are_not_property(file, at, n as usize, prop)
}

// A property line of the step, at depth k.
pub fn step_property_ok(file: &[u8], at: usize, h: LineHead, k: u8, prop: u16) -> bool
    requires { at + 80 ≤ length file.now }
    ensures { result ≡ step_property_ok k prop (line_with file.now at h) }
{
    let depth = k as u16;
    if depth < h.q {
        return false;
    }
    let atom = var(h.q as u8, prop);
    let literal = literal_at(file, at, 0);
    if h.q == depth {
        return (h.count == 1) & (literal.0 == Literal::negative(atom).0);
    }
    (h.count == 1) & (literal.0 == Literal::positive(atom).0)
}
