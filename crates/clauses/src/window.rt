// The clauses of an equation at an offset of a window.
ghost use Rattle.std.specs.Prelude.{◌-◌, ◌≡◌};
ghost use Rattle.constraints.specs.Linear.{variable};
ghost use Rattle.rules.specs.Clauses.{first_then, clauses, numbered};
ghost use Rattle.rules.specs.Versions.{version2};

use crate::operators::{
    and, at_most, constant, equal, equal_to, greater, if_then_else, lesser, multiple, not, or,
    same, same_as,
};
use constraints::var;
use node::{Equation, StreamType};
use rules::{Clause, Position};

// Stream x at one offset lower.
fn back(offset: u8, x: u16) -> u32
    ensures { result ≡ variable (offset - 1) x }
{
    var(offset.saturating_sub(1), x)
}

// Operators 12 and 13: at instant 0 the first operand, later the second; at the step's first offset no clause, unless the second stands in
// the window there.
fn later(
    ty: StreamType,
    place: Position,
    enters: bool,
    s: u32,
    first: u32,
    second: u32,
    r: u16,
) -> Option<Clause>
    ensures { result ≡ numbered (first_then ty place «enters» s first second) r }
{
    match place {
        Position::Opening => same_as(ty, s, first, r),
        Position::Entry if !enters => None,
        Position::Entry | Position::Inner => same_as(ty, s, second, r),
    }
}

// Clause r, counted from 0, of stream s at an offset.
pub fn clause_of(
    ty: StreamType,
    e: Equation,
    place: Position,
    offset: u8,
    s: u16,
    r: u16,
) -> Option<Clause>
    ensures { result ≡ numbered (clauses version2 ty e place (variable offset) (variable (offset - 1)) (variable offset s)) r }
{
    let s = var(offset, s);
    match e {
        Equation::Input => None,
        Equation::Constant(k) => constant(ty, s, k, r),
        Equation::Not(a) => not(s, var(offset, a), r),
        Equation::And(a, b) => and(s, var(offset, a), var(offset, b), r),
        Equation::Or(a, b) => or(s, var(offset, a), var(offset, b), r),
        Equation::Same(a, b) => same(s, var(offset, a), var(offset, b), r),
        Equation::Sum(a, b) => equal_to(s, 1, var(offset, a), 1, var(offset, b), 0, r),
        Equation::Difference(a, b) => equal_to(s, 1, var(offset, a), -1, var(offset, b), 0, r),
        Equation::Multiple(k, a) => multiple(s, k, var(offset, a), r),
        Equation::AtMost(a, b) => at_most(s, var(offset, a), var(offset, b), r),
        Equation::Equal(a, b) => equal(s, var(offset, a), var(offset, b), r),
        Equation::If {
            condition,
            then,
            otherwise,
        } => {
            if_then_else(
                ty,
                s,
                var(offset, then),
                var(offset, otherwise),
                var(offset, condition),
                r,
            )
        }
        Equation::Arrow(a, b) => later(ty, place, true, s, var(offset, a), var(offset, b), r),
        Equation::FollowedBy(a, b) => later(
            ty,
            place,
            false,
            s,
            var(offset, a),
            back(offset, b),
            r,
        ),
        Equation::Lesser(a, b) => lesser(s, var(offset, a), var(offset, b), r),
        Equation::Greater(a, b) => greater(s, var(offset, a), var(offset, b), r),
    }
}
