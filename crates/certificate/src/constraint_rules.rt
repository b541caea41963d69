// Rule 15, of a constraint and of all.
ghost use Rattle.std.specs.Prelude.{◌+◌, ◌*◌, ◌<◌, ◌≤◌, ◌≡◌, length};
ghost use Rattle.answers.specs.Checks.{every, lowest};
ghost use Rattle.constraints.specs.Layout.{constraint_at, term_at};
ghost use Rattle.constraints.specs.Rules.{types_of, between, used_ok, rises, unused_ok, term_ok, constraint_ok, constraint_passes};

use constraints::{Term, block_at, constraint_head, term_at, type_at};

fn between(low: i64, z: i64, high: i64) -> bool
    ensures { result ≡ between low z high }
{
    (low <= z) & (z <= high)
}

fn is_used_ok(types: &[u8], k: u8, t: Term) -> bool
    ensures { result ≡ used_ok (types_of types.now) k t }
{
    let its_type = type_at(types, t.stream as usize);
    (its_type == 1)
        & (t.offset <= k)
        & (t.zero == 0)
        & between(-1000000000, t.coefficient, 1000000000)
        & !between(0, t.coefficient, 0)
}

fn is_rising(t: Term, u: Term) -> bool
    ensures { result ≡ rises t u }
{
    (t.offset < u.offset) | ((t.offset == u.offset) & (t.stream < u.stream))
}

fn is_unused_ok(t: Term) -> bool
    ensures { result ≡ unused_ok t }
{
    (t.stream == 0) & (t.offset == 0) & (t.zero == 0) & between(0, t.coefficient, 0)
}

// Term j of the constraint at an offset, of which the first count are used.
fn is_term_ok(file: &[u8], at: usize, types: &[u8], k: u8, count: u8, j: usize) -> bool
    requires { (at + 80 ≤ length file.now) × (j < 8) }
    ensures { result ≡ term_ok (types_of types.now) k count (term_at file.now at) j }
{
    let term = term_at(file, at, j);
    if (count as usize) <= j {
        return is_unused_ok(term);
    }
    if j == 0 {
        return is_used_ok(types, k, term);
    }
    is_used_ok(types, k, term) & is_rising(term_at(file, at, j - 1), term)
}

// Rule 15, of the constraint at an offset.
pub fn constraint_ok(file: &[u8], at: usize, types: &[u8], k: u8) -> bool
    requires { at + 80 ≤ length file.now }
    ensures { result ≡ constraint_ok (types_of types.now) k (constraint_at file.now at) }
{
    let head = constraint_head(file, at);
    (head.count <= 8)
        & head.zeros
        & between(-100000000000, head.bound, 100000000000)
        & are_terms_ok(file, at, types, k, head.count)
}

// Each of the eight terms.
fn are_terms_ok(file: &[u8], at: usize, types: &[u8], k: u8, count: u8) -> bool
    requires { at + 80 ≤ length file.now }
    ensures { result ≡ every (term_ok (types_of types.now) k count (term_at file.now at)) 8 }
{
    (0..8).all(|j| is_term_ok(file, at, types, k, count, j))
}

// The lowest of the m constraints from an offset on that breaks its rules.
pub fn first_bad(file: &[u8], start: usize, m: usize, types: &[u8], k: u8) -> Option<usize>
    requires { start + 80 * m ≤ length file.now }
    ensures { result ≡ lowest (constraint_passes (types_of types.now) k file.now start) m }
{
    for i in 0..m {
        if !constraint_ok(file, block_at(start, i), types, k) {
            return Some(i);
        }
    }
    None
}
