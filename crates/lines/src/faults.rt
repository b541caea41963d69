// The rules of one line, 16 before its kind's.
ghost use Rattle.std.specs.Prelude.{ℕ, ◌+◌, ◌*◌, ◌<◌, ◌≤◌, ◌≡◌, true, pos, length, replicate, OnOk};
ghost use Rattle.node.specs.Equations.{type_at, equation_at};
ghost use Rattle.constraints.specs.Layout.{line_head_at, line_at, constraints_from, line_with};
ghost use Rattle.constraints.specs.Rules.{types_of};
ghost use Rattle.rules.specs.Joins.{join_ok};
ghost use Rattle.rules.specs.Lines.{equation_in};
ghost use Rattle.rules.specs.Verdict.{types_of_node, shape_passes, own_fault, line_fault};
ghost use Rattle.rules.specs.Versions.{version2};
ghost use Rattle.lines.specs.Checking.{Checking};
ghost use Rattle.lines.specs.Faults.{fault_at};
ghost use Rattle.lines.specs.Frame.{lines_at, part_in};

use crate::equations::equation_ok;
use crate::frame::Frame;
use crate::joins::join_ok;
use crate::property::{base_property_ok, step_property_ok};
use crate::refusals;
use crate::shape::shape_ok;
use answers::{Place, Refusal, check};
use arithmetic::{arithmetic_ok, cut_ok};
use constraints::{LineHead, block_at, line_head};
use rules::Position;

// Rule 17, of line i, which stands at an offset.
fn equation_passes(node: &[u8], cert: &[u8], f: Frame, at: usize, i: usize) -> bool
    requires { Checking node.now cert.now f × (at + 80 ≤ length cert.now) }
    ensures { result ≡ equation_in version2 f.streams (type_at node.now) (equation_at node.now) (constraints_from cert.now f.start) f.constraints (part_in f i).offsets (part_in f i).opening (line_at cert.now at) }
{
    let offsets = f.depth as usize + 1;
    if i < f.base {
        equation_ok(node, cert, f, at, offsets, Position::Opening)
    } else {
        equation_ok(node, cert, f, at, offsets, Position::Entry)
    }
}

// Rule 18, of line i, which stands at an offset and has this head.
fn property_passes(cert: &[u8], f: Frame, at: usize, h: LineHead, i: usize) -> bool
    requires { (at + 80 ≤ length cert.now) × (f.depth ≤ 8) }
    ensures { result ≡ (part_in f i).property (line_with cert.now at h) }
{
    if i < f.base {
        base_property_ok(cert, at, h, f.depth, f.property)
    } else {
        step_property_ok(cert, at, h, f.depth, f.property)
    }
}

// Rule 19, of line i.
fn join_passes(cert: &[u8], f: Frame, i: usize) -> bool
    requires { f.lines + 80 * (i + 1) ≤ length cert.now }
    ensures { result ≡ join_ok (lines_at cert.now f.lines) (part_in f i).from i }
{
    if i < f.base {
        join_ok(cert, f.lines, 0, i)
    } else {
        join_ok(cert, f.lines, f.base, i)
    }
}

// The rule of line i's kind; rule 16 has passed it.
fn own_fault(
    sums: &mut [i64],
    node: &[u8],
    cert: &[u8],
    f: Frame,
    at: usize,
    h: LineHead,
    i: usize,
) -> Result<(), Refusal>
    requires checking { Checking node.now cert.now f × (at ≡ f.lines + 80 * i) × (h ≡ line_head_at cert.now at) }
    requires i_value { (shape_passes node.now cert.now i ≡ true) × (i < f.base + f.step) }
    requires sums_value { sums.old ≡ replicate 576 (pos 0) }
    ensures answer { result ≡ fault_at i (own_fault version2 node.now cert.now i) }
    ensures cleared { OnOk result (sums.new ≡ replicate 576 (pos 0)) }
{
    let place = Place::Line(i);
    match h.kind {
        1 => check(
            equation_passes(node, cert, f, at, i),
            refusals::EQUATION,
            place,
        ),
        2 => check(
            property_passes(cert, f, at, h, i),
            refusals::PROPERTY,
            place,
        ),
        3 => check(join_passes(cert, f, i), refusals::JOIN, place),
        4 => check(
            arithmetic_ok(sums, cert, f.start, at, h.count as usize),
            refusals::ARITHMETIC,
            place,
        ),
        _ => check(cut_ok(sums, cert, f.start, at, h), refusals::CUT, place),
    }
}

// The first rule that line i breaks, 16 before its kind's, whatever the lines before it hold. The sums are lent at zero, and a line that
// breaks none leaves them so.
pub fn line_fault(
    sums: &mut [i64],
    node: &[u8],
    cert: &[u8],
    types: &[u8],
    f: Frame,
    i: usize,
) -> Result<(), Refusal>
    requires checking { Checking node.now cert.now f × ((x : ℕ) → types_of types.now x ≡ types_of_node node.now x) }
    requires i_bound { i < f.base + f.step }
    requires sums_value { sums.old ≡ replicate 576 (pos 0) }
    ensures answer { result ≡ fault_at i (line_fault version2 node.now cert.now i) }
    ensures cleared { OnOk result (sums.new ≡ replicate 576 (pos 0)) }
{
    let at = block_at(f.lines, i);
    let h = line_head(cert, at);
    check(
        shape_ok(cert, at, h, types, f.depth, f.constraints),
        refusals::SHAPE,
        Place::Line(i),
    )?;
    own_fault(sums, node, cert, f, at, h, i)
}
