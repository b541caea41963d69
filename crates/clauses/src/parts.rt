// Patterns and clauses by their parts.
ghost use Rattle.std.specs.Prelude.{◌≡◌, pos, neg_ℤ};
ghost use Rattle.rules.specs.declared.pattern.Pattern.TheVariants.{Most};
ghost use Rattle.rules.specs.Clauses.{linear, clause1, clause2, clause3};

use rules::{Clause, Linear, Pattern};

// x − y is at most the bound: "x ≤ y" with bound 0, "x < y" with −1.
pub fn difference(x: u32, y: u32, bound: i64) -> Pattern
    ensures { result ≡ Most (linear x (pos 1) y (neg_ℤ (pos 1)) x (pos 0) bound) }
{
    Pattern::Most(Linear {
        x,
        a: 1,
        y,
        b: -1,
        z: x,
        c: 0,
        bound,
    })
}

// A clause of one literal, of two and of three: which fields repeat differs, so one function over a count would match on it.
pub fn one(p: Pattern) -> Clause
    ensures { result ≡ clause1 p }
{
    Clause {
        count: 1,
        first: p,
        second: p,
        third: p,
    }
}

pub fn two(p: Pattern, q: Pattern) -> Clause
    ensures { result ≡ clause2 p q }
{
    Clause {
        count: 2,
        first: p,
        second: q,
        third: q,
    }
}

pub fn three(p: Pattern, q: Pattern, r: Pattern) -> Clause
    ensures { result ≡ clause3 p q r }
{
    Clause {
        count: 3,
        first: p,
        second: q,
        third: r,
    }
}
