// The clauses of each operator, over variables.
ghost use Rattle.std.specs.Prelude.{◌≡◌, ◌≤◌, IfSome, option_map};
ghost use Rattle.node.specs.declared.equation.StreamType.TheVariants.{Bool as BoolType, Int as IntType};
ghost use Rattle.node.specs.declared.equation.Equation.TheVariants.{Constant, Not, And, Or, Same, Multiple, AtMost, Equal, If, Lesser, Greater};
ghost use Rattle.rules.specs.Clauses.{equal_to, same_as, guarded, numbered};
ghost use Rattle.clauses.specs.Operators.{over};

use crate::parts::{difference, one, three, two};
use node::StreamType;
use rules::{Clause, Linear, Pattern};

// "{s ≤ e} {e ≤ s}", with e = a·x + b·y + k
pub fn equal_to(s: u32, a: i32, x: u32, b: i32, y: u32, k: i32, r: u16) -> Option<Clause>
    ensures { result ≡ numbered (equal_to s a x b y k) r }
{
    let upper = Linear {
        x: s,
        a: 1,
        y: x,
        b: -i64::from(a),
        z: y,
        c: -i64::from(b),
        bound: i64::from(k),
    };
    let lower = Linear {
        x: s,
        a: -1,
        y: x,
        b: i64::from(a),
        z: y,
        c: i64::from(b),
        bound: -i64::from(k),
    };
    match r {
        0 => Some(one(Pattern::Most(upper))),
        1 => Some(one(Pattern::Most(lower))),
        _ => None,
    }
}

// "{!s, t} {s, !t} or {s ≤ t} {t ≤ s}"
pub fn same_as(ty: StreamType, s: u32, t: u32, r: u16) -> Option<Clause>
    ensures { result ≡ numbered (same_as ty s t) r }
{
    match ty {
        StreamType::Bool => match r {
            0 => Some(two(Pattern::No(s), Pattern::Yes(t))),
            1 => Some(two(Pattern::Yes(s), Pattern::No(t))),
            _ => None,
        },
        StreamType::Int => match r {
            0 => Some(one(difference(s, t, 0))),
            1 => Some(one(difference(t, s, 0))),
            _ => None,
        },
    }
}

// Operator 1.
pub fn constant(ty: StreamType, s: u32, k: i32, r: u16) -> Option<Clause>
    ensures { result ≡ numbered (over ty (Constant k) s) r }
{
    match ty {
        StreamType::Bool => {
            let literal = if k <= 0 {
                Pattern::No(s)
            } else {
                Pattern::Yes(s)
            };
            match r {
                0 => Some(one(literal)),
                _ => None,
            }
        }
        StreamType::Int => equal_to(s, 0, s, 0, s, k, r),
    }
}

// Operator 2.
pub fn not(s: u32, a: u32, r: u16) -> Option<Clause>
    ensures { result ≡ numbered (over BoolType (Not a) s) r }
{
    match r {
        0 => Some(two(Pattern::Yes(s), Pattern::Yes(a))),
        1 => Some(two(Pattern::No(s), Pattern::No(a))),
        _ => None,
    }
}

// Operator 3.
pub fn and(s: u32, a: u32, b: u32, r: u16) -> Option<Clause>
    ensures { result ≡ numbered (over BoolType (And a b) s) r }
{
    match r {
        0 => Some(two(Pattern::No(s), Pattern::Yes(a))),
        1 => Some(two(Pattern::No(s), Pattern::Yes(b))),
        2 => Some(three(Pattern::Yes(s), Pattern::No(a), Pattern::No(b))),
        _ => None,
    }
}

// Operator 4.
pub fn or(s: u32, a: u32, b: u32, r: u16) -> Option<Clause>
    ensures { result ≡ numbered (over BoolType (Or a b) s) r }
{
    match r {
        0 => Some(two(Pattern::Yes(s), Pattern::No(a))),
        1 => Some(two(Pattern::Yes(s), Pattern::No(b))),
        2 => Some(three(Pattern::No(s), Pattern::Yes(a), Pattern::Yes(b))),
        _ => None,
    }
}

// Operator 5.
pub fn same(s: u32, a: u32, b: u32, r: u16) -> Option<Clause>
    ensures { result ≡ numbered (over BoolType (Same a b) s) r }
{
    match r {
        0 => Some(three(Pattern::No(s), Pattern::No(a), Pattern::Yes(b))),
        1 => Some(three(Pattern::No(s), Pattern::Yes(a), Pattern::No(b))),
        2 => Some(three(Pattern::Yes(s), Pattern::Yes(a), Pattern::Yes(b))),
        3 => Some(three(Pattern::Yes(s), Pattern::No(a), Pattern::No(b))),
        _ => None,
    }
}

// Operator 8.
pub fn multiple(s: u32, k: i32, a: u32, r: u16) -> Option<Clause>
    ensures { result ≡ numbered (over IntType (Multiple k a) s) r }
{
    equal_to(s, k, a, 0, a, 0, r)
}

// Operator 9.
pub fn at_most(s: u32, a: u32, b: u32, r: u16) -> Option<Clause>
    ensures { result ≡ numbered (over BoolType (AtMost a b) s) r }
{
    match r {
        0 => Some(two(Pattern::No(s), difference(a, b, 0))),
        1 => Some(two(Pattern::Yes(s), difference(b, a, -1))),
        _ => None,
    }
}

// Operator 10.
pub fn equal(s: u32, a: u32, b: u32, r: u16) -> Option<Clause>
    ensures { result ≡ numbered (over BoolType (Equal a b) s) r }
{
    match r {
        0 => Some(two(Pattern::No(s), difference(a, b, 0))),
        1 => Some(two(Pattern::No(s), difference(b, a, 0))),
        2 => Some(three(Pattern::Yes(s), difference(a, b, -1), difference(b, a, -1))),
        _ => None,
    }
}

// Operator 14.
pub fn lesser(s: u32, a: u32, b: u32, r: u16) -> Option<Clause>
    ensures { result ≡ numbered (over IntType (Lesser a b) s) r }
{
    match r {
        0 => Some(one(difference(s, a, 0))),
        1 => Some(one(difference(s, b, 0))),
        2 => Some(two(difference(a, s, 0), difference(b, s, 0))),
        _ => None,
    }
}

// Operator 15.
pub fn greater(s: u32, a: u32, b: u32, r: u16) -> Option<Clause>
    ensures { result ≡ numbered (over IntType (Greater a b) s) r }
{
    match r {
        0 => Some(one(difference(a, s, 0))),
        1 => Some(one(difference(b, s, 0))),
        2 => Some(two(difference(s, a, 0), difference(s, b, 0))),
        _ => None,
    }
}

// Clause r of a list, with a literal put in front.
fn guarded(p: Pattern, clause: Option<Clause>) -> Option<Clause>
    requires { IfSome clause (λ c. c.count ≤ 2) }
    ensures { result ≡ option_map (guarded p) clause }
{
    let c = clause?;
    Some(Clause {
        count: c.count + 1,
        first: p,
        second: c.first,
        third: c.second,
    })
}

// Operator 11: two clauses of each branch.
pub fn if_then_else(ty: StreamType, s: u32, a: u32, b: u32, c: u32, r: u16) -> Option<Clause>
    ensures { result ≡ numbered (over ty (If c a b) s) r }
{
    if r < 2 {
        guarded(Pattern::No(c), same_as(ty, s, a, r))
    } else {
        guarded(Pattern::Yes(c), same_as(ty, s, b, r - 2))
    }
}
