// Rule 16: the shape of a line.
ghost use Rattle.std.specs.Prelude.{◌+◌, ◌<◌, ◌≤◌, ◌≡◌, length};
ghost use Rattle.answers.specs.Checks.{every};
ghost use Rattle.constraints.specs.Layout.{literal_at, multiplier_at, line_with};
ghost use Rattle.constraints.specs.Rules.{types_of};
ghost use Rattle.rules.specs.Literals.{names_atom};
ghost use Rattle.rules.specs.Lines.{multiplier_ok, slot_ok, numbers_ok, shape_ok};
ghost use Rattle.lines.specs.Slots.{listed_ok, unused_ok};

use arithmetic::is_multiplier;
use constraints::{LineHead, literal_at, multiplier_at, type_at};

// The number names an atom, at depth k with m constraints.
fn names_atom(types: &[u8], k: u8, m: usize, atom: usize) -> bool
    ensures { result ≡ names_atom (types_of types.now) k m atom }
{
    if 576 <= atom {
        return atom - 576 < m;
    }
    let its_type = type_at(types, atom % 64);
    (atom / 64 <= (k as usize)) & (its_type == 0)
}

// A listed literal's multiplier: from 1 to 1,000,000 in an arithmetic line, any in a cut (rule 22 looks at it), 0 in any other.
fn multiplier_ok(kind: u8, multiplier: u32) -> bool
    ensures { result ≡ multiplier_ok kind multiplier }
{
    if kind == 4 {
        is_multiplier(multiplier)
    } else {
        (kind == 5) | (multiplier == 0)
    }
}

// Literal and multiplier j of the line at an offset, of this kind, where it is listed.
fn is_listed(file: &[u8], at: usize, kind: u8, types: &[u8], k: u8, m: usize, j: usize) -> bool
    requires { (at + 80 ≤ length file.now) × (j < 12) }
    ensures { result ≡ listed_ok (types_of types.now) k m kind (literal_at file.now at) (multiplier_at file.now at) j }
{
    let literal = literal_at(file, at, j);
    let multiplier = multiplier_at(file, at, j);
    names_atom(types, k, m, literal.atom()) & multiplier_ok(kind, multiplier)
}

// Each of the literals and multipliers that are listed.
fn are_listed(file: &[u8], at: usize, h: LineHead, types: &[u8], k: u8, m: usize) -> bool
    requires { (at + 80 ≤ length file.now) × (h.count ≤ 12) }
    ensures { result ≡ every (listed_ok (types_of types.now) k m h.kind (literal_at file.now at) (multiplier_at file.now at)) h.count }
{
    let count = h.count as usize;
    (0..count).all(|j| is_listed(file, at, h.kind, types, k, m, j))
}

// The literals and multipliers from `count` on are zero. All twelve are looked at, since a loop that never ends early takes
// several at a time.
fn are_unused(file: &[u8], at: usize, count: usize) -> bool
    requires { at + 80 ≤ length file.now }
    ensures { result ≡ every (unused_ok count (literal_at file.now at) (multiplier_at file.now at)) 12 }
{
    let mut clear = true;
    for j in 0..12 {
        let literal = literal_at(file, at, j);
        let multiplier = multiplier_at(file, at, j);
        clear &= (j < count) | ((literal.0 == 0) & (multiplier == 0));
    }
    clear
}

// Each of the twelve literals and multipliers.
fn are_slots(file: &[u8], at: usize, h: LineHead, types: &[u8], k: u8, m: usize) -> bool
    requires { (at + 80 ≤ length file.now) × (h.count ≤ 12) }
    ensures { result ≡ every (slot_ok (types_of types.now) k m h.kind h.count (literal_at file.now at) (multiplier_at file.now at)) 12 }
{
    if !are_listed(file, at, h, types, k, m) {
        return false;
    }
    are_unused(file, at, h.count as usize)
}

// What the kind does not use of p, q and r is zero.
fn are_numbers(h: LineHead) -> bool
    ensures { result ≡ numbers_ok h }
{
    ((h.kind == 1) | (h.kind == 3) | (h.p == 0))
        & ((h.kind <= 3) | (h.q == 0))
        & ((h.kind == 1) | (h.kind == 3) | (h.kind == 5) | (h.r == 0))
}

// Rule 16, of the line at an offset whose head was read.
pub fn shape_ok(file: &[u8], at: usize, h: LineHead, types: &[u8], k: u8, m: usize) -> bool
    requires { at + 80 ≤ length file.now }
    ensures { result ≡ shape_ok (types_of types.now) k m (line_with file.now at h) }
{
    if 12 < h.count {
        return false;
    }
    if !((1 <= h.kind) & (h.kind <= 5) & are_numbers(h)) {
        return false;
    }
    are_slots(file, at, h, types, k, m)
}
