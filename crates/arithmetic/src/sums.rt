// The literals of an arithmetic line one after another: all on constraints, and their sums.
ghost use Rattle.std.specs.Prelude.{ℕ, ◌+◌, ◌<◌, ◌≤◌, ◌≡◌, pos, length, replicate};
ghost use Rattle.answers.specs.Checks.{every};
ghost use Rattle.constraints.specs.Layout.{constraint_at, line_at, literal_at, constraints_from};
ghost use Rattle.literals.specs.Literals.{atom_of, is_constraint};
ghost use Rattle.rules.specs.Arithmetic.{sum_of};
ghost use Rattle.arithmetic.specs.Sums.{place_of, sums_of, terms_zero};
ghost use Rattle.arithmetic.specs.Checkable.{Usable};

use crate::terms::{add_terms, are_terms_zero, bound_at, factor_at, place_of};
use constraints::literal_at;

// Each of the first `count` literals is on a constraint.
pub fn are_constraints(file: &[u8], at: usize, count: usize) -> bool
    requires { (at + 80 ≤ length file.now) × (count ≤ 12) }
    ensures { result ≡ every (λ j. is_constraint (atom_of (literal_at file.now at j))) count }
{
    (0..count).all(|j| 576 <= literal_at(file, at, j).atom())
}

// The opposites of the first `count` literals, times their multipliers, added up: at each variable.
pub fn add_literals(sums: &mut [i64], file: &[u8], start: usize, at: usize, count: usize)
    requires count_bound { count ≤ 12 }
    requires by_index { (j : ℕ) → j < count → Usable file.now start at j }
    requires sums_value { sums.old ≡ replicate 576 (pos 0) }
    ensures { sums.new ≡ sums_of (constraints_from file.now start) (line_at file.now at) count }
{
    for j in 0..count {
        let place = place_of(file, start, at, j);
        let factor = factor_at(file, at, j);
        add_terms(sums, file, place, factor);
    }
}

// The same sum's bound.
pub fn bound_of(file: &[u8], start: usize, at: usize, count: usize) -> i64
    requires count_bound { count ≤ 12 }
    requires by_index { (j : ℕ) → j < count → Usable file.now start at j }
    ensures { result ≡ (sum_of (constraints_from file.now start) (line_at file.now at) count).bound }
{
    let mut bound: i64 = 0;
    for j in 0..count {
        bound += bound_at(file, start, at, j);
    }
    bound
}

// The sum at each variable that the first `count` literals name is 0.
pub fn are_zero(sums: &[i64], file: &[u8], start: usize, at: usize, count: usize) -> bool
    requires sums_len { length sums.now ≡ 576 }
    requires by_index { (j : ℕ) → j < count → Usable file.now start at j }
    ensures { result ≡ every (λ j. terms_zero sums.now (constraint_at file.now (place_of file.now start at j))) count }
{
    (0..count).all(|j| are_terms_zero(sums, file, place_of(file, start, at, j)))
}
