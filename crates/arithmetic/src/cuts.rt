// Cuts: the opposites of all literals but the last, times multipliers, add up to r times the last one's constraint, whose bound is
// the sum's over r, rounded down.
ghost use Rattle.std.specs.Prelude.{◌+◌, ◌<◌, ◌≤◌, ◌≡◌, pos, nat_abs, length, replicate};
ghost use Rattle.answers.specs.Checks.{every};
ghost use Rattle.constraints.specs.Layout.{line_head_at, line_at, literal_at, multiplier_at, constraints_from, line_with};
ghost use Rattle.constraints.specs.Linear.{same_z};
ghost use Rattle.rules.specs.Cuts.{last_ok, other_ok, is_cut, floor_over, rounded_ok, cut_ok, as_arithmetic};
ghost use Rattle.arithmetic.specs.Sums.{sums_of, sums_after_cut};
ghost use Rattle.arithmetic.specs.Checkable.{Checkable, Cutting};

use crate::multipliers::is_multiplier;
use crate::sums::{add_literals, are_zero, bound_of};
use crate::terms::{add_terms, place_of, product};
use constraints::{LineHead, constraint_head, literal_at, multiplier_at};

// Literal and multiplier j, of the last literal: an unnegated constraint, 0.
fn is_last(file: &[u8], at: usize, j: usize) -> bool
    requires { (at + 80 ≤ length file.now) × (j < 12) }
    ensures { result ≡ last_ok (literal_at file.now at j) (multiplier_at file.now at j) }
{
    let literal = literal_at(file, at, j);
    let multiplier = multiplier_at(file, at, j);
    (576 <= literal.atom()) & !literal.sign() & (multiplier == 0)
}

// Each of the first `count` literals is on a constraint and has a multiplier of kind 4.
fn are_others(file: &[u8], at: usize, count: usize) -> bool
    requires { (at + 80 ≤ length file.now) × (count ≤ 12) }
    ensures { result ≡ every (λ j. other_ok (literal_at file.now at j) (multiplier_at file.now at j)) count }
{
    (0..count).all(|j| {
        let is_constraint = 576 <= literal_at(file, at, j).atom();
        is_constraint & is_multiplier(multiplier_at(file, at, j))
    })
}

// What the line at an offset says of a cut without a look at its constraints.
fn is_cut(file: &[u8], at: usize, h: LineHead) -> bool
    requires { (at + 80 ≤ length file.now) × (h.count ≤ 12) }
    ensures { result ≡ is_cut (line_with file.now at h) }
{
    let count = h.count as usize;
    if count < 1 {
        return false;
    }
    is_last(file, at, count - 1) & are_others(file, at, count - 1) & (1 <= h.r)
}

// A bound is the sum over r, rounded toward minus infinity: r times the bound is at most the sum, and r more is past it.
fn is_floor(bound: i64, sum: i64, r: u16) -> bool
    requires { (1 ≤ r) × (nat_abs bound ≤ 100000000000) }
    ensures { result ≡ same_z bound (floor_over sum r) }
{
    let least = product(r as i64, bound);
    (sum < least + (r as i64)) & (least <= sum)
}

// The opposites of all literals but the last, times their multipliers, added up, less r times the last one's constraint: at each
// variable.
fn add_cut(sums: &mut [i64], file: &[u8], start: usize, at: usize, last: usize, r: u16)
    requires cutting { Cutting file.now start at last r }
    requires sums_value { sums.old ≡ replicate 576 (pos 0) }
    ensures { sums.new ≡ sums_of (constraints_from file.now start) (as_arithmetic (line_at file.now at)) (last + 1) }
{
    add_literals(sums, file, start, at, last);
    let place = place_of(file, start, at, last);
    add_terms(sums, file, place, -(r as i64));
}

// The last literal's constraint has the bound of the others' sum over r, rounded down.
fn is_rounded(file: &[u8], start: usize, at: usize, last: usize, r: u16) -> bool
    requires { Cutting file.now start at last r }
    ensures { result ≡ rounded_ok (constraints_from file.now start) (line_at file.now at) }
{
    let head = constraint_head(file, place_of(file, start, at, last));
    let sum = bound_of(file, start, at, last);
    is_floor(head.bound, sum, r)
}

// Rule 22, of the line at an offset of a file whose constraints start at another. The sums are lent at zero, and hold the
// line's after it; those of a line that passes are zero again.
pub fn cut_ok(sums: &mut [i64], file: &[u8], start: usize, at: usize, h: LineHead) -> bool
    requires checkable { Checkable file.now start at × (h ≡ line_head_at file.now at) }
    requires sums_value { sums.old ≡ replicate 576 (pos 0) }
    ensures answer { result ≡ cut_ok (constraints_from file.now start) (line_at file.now at) }
    ensures sums { sums.new ≡ sums_after_cut (constraints_from file.now start) (line_at file.now at) }
{
    if !is_cut(file, at, h) {
        return false;
    }
    let count = h.count as usize;
    let last = count - 1;
    add_cut(sums, file, start, at, last, h.r);
    let rounded = is_rounded(file, start, at, last, h.r);
    are_zero(sums, file, start, at, count) & rounded
}
