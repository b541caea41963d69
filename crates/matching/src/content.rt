// "compared by content": a constraint of the file against one of three variables.
ghost use Rattle.std.specs.Prelude.{◌+◌, ◌<◌, ◌≤◌, ◌≡◌, true, nat_abs, length};
ghost use Rattle.constraints.specs.Layout.{head_at, term_at, constraint_at};
ghost use Rattle.constraints.specs.Linear.{monomial, coefficient, written, agree_at, same_content, bounded_of as of_constraint};
ghost use Rattle.rules.specs.Clauses.{bounded_of};
ghost use Rattle.matching.specs.Content.{share, agree, Summable};

use constraints::{constraint_head, term_at, var};
use rules::Linear;

// What a term adds to the coefficient at x.
fn share(of: u32, times: i64, x: u32) -> i64
    ensures { result ≡ share (record { of = of; times = times }) x }
{
    if of == x { times } else { 0 }
}

// What term j of the constraint at an offset adds.
fn share_at(file: &[u8], at: usize, j: usize, x: u32) -> i64
    requires { (at + 80 ≤ length file.now) × (j < 8) }
    ensures { (result ≡ share (monomial (term_at file.now at j)) x) × (nat_abs result ≤ 2147483648) }
{
    let term = term_at(file, at, j);
    share(var(term.offset, term.stream), term.coefficient, x)
}

// The coefficient at x of the first count terms.
pub fn coefficient_at(file: &[u8], at: usize, count: usize, x: u32) -> i64
    requires { (at + 80 ≤ length file.now) × (count ≤ 8) }
    ensures { result ≡ coefficient (written (constraint_at file.now at) count) x }
{
    let mut sum: i64 = 0;
    for j in 0..count {
        sum += share_at(file, at, j, x);
    }
    sum
}

pub fn coefficient_of(d: Linear, x: u32) -> i64
    requires { Summable d }
    ensures { result ≡ coefficient (bounded_of d).form x }
{
    share(d.x, d.a, x) + (share(d.y, d.b, x) + share(d.z, d.c, x))
}

// Both have the same coefficient at x.
fn do_agree(file: &[u8], at: usize, count: usize, d: Linear, x: u32) -> bool
    requires { (at + 80 ≤ length file.now) × (count ≤ 8) × Summable d }
    ensures { result ≡ agree (written (constraint_at file.now at) count) (bounded_of d).form x }
{
    coefficient_at(file, at, count, x) == coefficient_of(d, x)
}

// They agree at each variable of d. `first` is the file's coefficient at the first of them, which the caller has summed; the third is
// one of the others but where two streams are added or subtracted.
fn do_variables_agree(file: &[u8], at: usize, count: usize, d: Linear, first: i64) -> bool
    requires at_in_bounds { (at + 80 ≤ length file.now) × (count ≤ 8) × Summable d }
    requires first_value { first ≡ coefficient (written (constraint_at file.now at) count) d.x }
    ensures { result ≡ agree_at (written (constraint_at file.now at) count) (bounded_of d).form (bounded_of d).form }
{
    let others = do_agree(file, at, count, d, d.y) & (first == coefficient_of(d, d.x));
    if (d.z == d.x) | (d.z == d.y) {
        return others;
    }
    do_agree(file, at, count, d, d.z) & others
}

// They agree at x, where they do at each variable of d. Most terms are on one of those, and need no sum.
fn do_agree_elsewhere(file: &[u8], at: usize, count: usize, d: Linear, x: u32) -> bool
    requires at_in_bounds { (at + 80 ≤ length file.now) × (count ≤ 8) × Summable d }
    requires d_value { agree_at (written (constraint_at file.now at) count) (bounded_of d).form (bounded_of d).form ≡ true }
    ensures { result ≡ agree (written (constraint_at file.now at) count) (bounded_of d).form x }
{
    if (x == d.x) | (x == d.y) | (x == d.z) {
        return true;
    }
    do_agree(file, at, count, d, x)
}

// They agree at the variable of each term, where they do at each of d.
fn do_terms_agree(file: &[u8], at: usize, count: usize, d: Linear) -> bool
    requires at_in_bounds { (at + 80 ≤ length file.now) × (count ≤ 8) × Summable d }
    requires d_value { agree_at (written (constraint_at file.now at) count) (bounded_of d).form (bounded_of d).form ≡ true }
    ensures { result ≡ agree_at (written (constraint_at file.now at) count) (bounded_of d).form (written (constraint_at file.now at) count) }
{
    (0..count).all(|j| {
        let term = term_at(file, at, j);
        do_agree_elsewhere(file, at, count, d, var(term.offset, term.stream))
    })
}

// The constraint at an offset has the content of d. `first` is its coefficient at d's first variable.
pub fn same_content(file: &[u8], at: usize, d: Linear, first: i64) -> bool
    requires at_in_bounds { (at + 80 ≤ length file.now) × ((head_at file.now at).count ≤ 8) × Summable d }
    requires first_value { first ≡ coefficient (of_constraint (constraint_at file.now at)).form d.x }
    ensures { result ≡ same_content (of_constraint (constraint_at file.now at)) (bounded_of d) }
{
    let head = constraint_head(file, at);
    let count = head.count as usize;
    if !((head.bound == d.bound) & do_variables_agree(file, at, count, d, first)) {
        return false;
    }
    do_terms_agree(file, at, count, d)
}
