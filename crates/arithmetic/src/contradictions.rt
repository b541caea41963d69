// Arithmetic lines: the opposites of their literals, times multipliers, add up to a contradiction.
ghost use Rattle.std.specs.Prelude.{ℕ, ◌<◌, ◌≤◌, ◌≡◌, pos, replicate};
ghost use Rattle.constraints.specs.Layout.{line_head_at, line_at, multiplier_at, constraints_from};
ghost use Rattle.rules.specs.Arithmetic.{arithmetic_ok};
ghost use Rattle.arithmetic.specs.Sums.{sums_after};
ghost use Rattle.arithmetic.specs.Checkable.{Checkable};

use crate::sums::{add_literals, are_constraints, are_zero, bound_of};

// Rule 20, of the line at an offset of a file whose constraints start at another. The sums are lent at zero, and hold the
// line's after it; those of a line that passes are zero again.
pub fn arithmetic_ok(sums: &mut [i64], file: &[u8], start: usize, at: usize, count: usize) -> bool
    requires checkable { Checkable file.now start at × (count ≡ (line_head_at file.now at).count) }
    requires by_index { (j : ℕ) → j < count → multiplier_at file.now at j ≤ 1000000 }
    requires sums_value { sums.old ≡ replicate 576 (pos 0) }
    ensures answer { result ≡ arithmetic_ok (constraints_from file.now start) (line_at file.now at) }
    ensures sums { sums.new ≡ sums_after (constraints_from file.now start) (line_at file.now at) }
{
    if count < 1 {
        return false;
    }
    if !are_constraints(file, at, count) {
        return false;
    }
    add_literals(sums, file, start, at, count);
    let bound = bound_of(file, start, at, count);
    are_zero(sums, file, start, at, count) & (bound <= -1)
}
