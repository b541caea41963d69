// One literal of an arithmetic line: its constraint, times its multiplier.
ghost use Rattle.std.specs.Prelude.{ℕ, ◌+◌, ◌<◌, ◌≤◌, ◌≡◌, pos, nat_abs, ◌*ℤ◌, length, get_or};
ghost use Rattle.constraints.specs.Layout.{head_at, term_at, constraint_at, used_in, literal_at, multiplier_at};
ghost use Rattle.constraints.specs.Linear.{variable, scaled, written};
ghost use Rattle.arithmetic.specs.Sums.{add_form, place_of, factor_of, opposite_bound, zero_at, terms_zero};
ghost use Rattle.arithmetic.specs.Checkable.{Summable, Usable};

use constraints::{block_at, constraint_head, literal_at, multiplier_at, term_at, var};
use literals::Literal;

// A multiplier, or its negation, times a coefficient or a bound: it fits.
pub fn product(factor: i64, n: i64) -> i64
    requires { (nat_abs factor ≤ 1000000) × (nat_abs n ≤ 200000000000) }
    ensures { result ≡ factor *ℤ n }
{
    factor * n
}

// The variable of term j of the constraint at an offset.
fn variable_at(file: &[u8], at: usize, j: usize) -> usize
    requires { (at + 80 ≤ length file.now) × (j < 8) }
    ensures { result ≡ variable (term_at file.now at j).offset (term_at file.now at j).stream }
{
    let term = term_at(file, at, j);
    var(term.offset, term.stream) as usize
}

// Its coefficient, times a factor.
fn weighted_at(file: &[u8], at: usize, j: usize, factor: i64) -> i64
    requires at_in_bounds { (at + 80 ≤ length file.now) × (j < 8) }
    requires factor_bound { (nat_abs factor ≤ 1000000) × (nat_abs (term_at file.now at j).coefficient ≤ 1000000000) }
    ensures { result ≡ factor *ℤ (term_at file.now at j).coefficient }
{
    let term = term_at(file, at, j);
    product(factor, term.coefficient)
}

// Where the constraint of literal j stands.
pub fn place_of(file: &[u8], start: usize, at: usize, j: usize) -> usize
    requires { Usable file.now start at j }
    ensures { result ≡ place_of file.now start at j }
{
    let literal = literal_at(file, at, j);
    block_at(start, literal.atom() - 576)
}

// What the coefficients of the constraint of literal j are multiplied by.
pub fn factor_at(file: &[u8], at: usize, j: usize) -> i64
    requires { (at + 80 ≤ length file.now) × (j < 12) × (multiplier_at file.now at j ≤ 1000000) }
    ensures { result ≡ factor_of (literal_at file.now at j) (multiplier_at file.now at j) }
{
    let literal = literal_at(file, at, j);
    let multiplier = multiplier_at(file, at, j) as i64;
    if literal.sign() {
        multiplier
    } else {
        -multiplier
    }
}

// The terms of the constraint at an offset, times a factor, added at their variables.
pub fn add_terms(sums: &mut [i64], file: &[u8], at: usize, factor: i64)
    requires summable { Summable file.now at }
    requires factor_bound { nat_abs factor ≤ 1000000 }
    requires sums_len { (length sums.old ≡ 576) × ((x : ℕ) → x < 576 → nat_abs (get_or sums.old x (pos 0)) ≤ 1000000000000000000) }
    ensures { sums.new ≡ add_form sums.old (scaled factor (written (constraint_at file.now at) (used_in (constraint_at file.now at)))) }
{
    let head = constraint_head(file, at);
    let count = head.count as usize;
    for j in 0..count {
        let x = variable_at(file, at, j);
        let weighted = weighted_at(file, at, j, factor);
        sums[x] += weighted;
    }
}

// The sum at the variable of term j of the constraint at an offset is 0.
fn is_zero_at(sums: &[i64], file: &[u8], at: usize, j: usize) -> bool
    requires summable { Summable file.now at × (j < used_in (constraint_at file.now at)) }
    requires sums_len { length sums.now ≡ 576 }
    ensures { result ≡ zero_at sums.now (constraint_at file.now at) j }
{
    sums[variable_at(file, at, j)] == 0
}

// .. and of each of its terms.
pub fn are_terms_zero(sums: &[i64], file: &[u8], at: usize) -> bool
    requires summable { Summable file.now at }
    requires sums_len { length sums.now ≡ 576 }
    ensures { result ≡ terms_zero sums.now (constraint_at file.now at) }
{
    let head = constraint_head(file, at);
    let count = head.count as usize;
    (0..count).all(|j| is_zero_at(sums, file, at, j))
}

fn opposite_bound(literal: Literal, bound: i64) -> i64
    requires { nat_abs bound ≤ 100000000000 }
    ensures { result ≡ opposite_bound literal.0 bound }
{
    if literal.sign() { bound } else { -bound - 1 }
}

// The bound of the opposite of literal j, times the multiplier.
pub fn bound_at(file: &[u8], start: usize, at: usize, j: usize) -> i64
    requires { Usable file.now start at j }
    ensures { result ≡ pos (multiplier_at file.now at j) *ℤ opposite_bound (literal_at file.now at j) (head_at file.now (place_of file.now start at j)).bound }
{
    let literal = literal_at(file, at, j);
    let head = constraint_head(file, place_of(file, start, at, j));
    let bound = opposite_bound(literal, head.bound);
    product(multiplier_at(file, at, j) as i64, bound)
}
