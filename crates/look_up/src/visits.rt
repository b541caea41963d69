// What an equation visits, and its value from what it visited.
ghost use Rattle.std.specs.Prelude.{◌≡◌};
ghost use Rattle.integers.specs.Range.{checked_of};
ghost use Rattle.look_up.specs.Looking.{over};
ghost use Rattle.look_up.specs.Visits.{first_visit, second_visit};

use node::Equation;
use streams::{
    at_most, both, either, equal, greater_of, lesser_of, minus, negation, plus, same, times, whole,
};

// A stream that is visited, and its instant.
#[derive(Clone, Copy)]
pub struct Visit {
    pub instant: usize,
    pub stream: u16,
}

// What is visited first, from instant t.
pub fn first_visit(e: Equation, t: usize) -> Option<Visit>
    ensures { result ≡ first_visit e t }
{
    let (instant, stream) = match e {
        Equation::Input | Equation::Constant(_) => return None,
        Equation::Arrow(a, b) => (t, if t == 0 { a } else { b }),
        Equation::FollowedBy(a, b) => if t == 0 { (t, a) } else { (t - 1, b) },
        Equation::Not(a)
        | Equation::And(a, _)
        | Equation::Or(a, _)
        | Equation::Same(a, _)
        | Equation::Sum(a, _)
        | Equation::Difference(a, _)
        | Equation::Multiple(_, a)
        | Equation::AtMost(a, _)
        | Equation::Equal(a, _)
        | Equation::If {
            condition: a,
            then: _,
            otherwise: _,
        }
        | Equation::Lesser(a, _)
        | Equation::Greater(a, _) => (t, a),
    };
    Some(Visit { instant, stream })
}

// What is visited then: `holds` says whether the first is true.
pub fn second_visit(e: Equation, t: usize, holds: bool) -> Option<Visit>
    ensures { result ≡ second_visit e t holds }
{
    let stream = match e {
        Equation::Input
        | Equation::Constant(_)
        | Equation::Not(_)
        | Equation::Multiple(_, _)
        | Equation::Arrow(_, _)
        | Equation::FollowedBy(_, _) => return None,
        Equation::If {
            condition: _,
            then,
            otherwise,
        } => if holds { then } else { otherwise },
        Equation::And(_, b)
        | Equation::Or(_, b)
        | Equation::Same(_, b)
        | Equation::Sum(_, b)
        | Equation::Difference(_, b)
        | Equation::AtMost(_, b)
        | Equation::Equal(_, b)
        | Equation::Lesser(_, b)
        | Equation::Greater(_, b) => b,
    };
    Some(Visit { instant: t, stream })
}

// The value of an equation whose visits have the values x and y, by the functions of each operator that a session uses.
pub fn combined(e: Equation, given: i64, x: i64, y: i64) -> Option<i64>
    ensures { result ≡ checked_of (over e given x y) }
{
    let visited = [x, y];
    match e {
        Equation::Input => whole(given),
        Equation::Constant(k) => whole(k as i64),
        Equation::Not(_) => negation(&visited, 0),
        Equation::And(_, _) => both(&visited, 0, 1),
        Equation::Or(_, _) => either(&visited, 0, 1),
        Equation::Same(_, _) => same(&visited, 0, 1),
        Equation::Sum(_, _) => plus(&visited, 0, 1),
        Equation::Difference(_, _) => minus(&visited, 0, 1),
        Equation::Multiple(k, _) => times(k as i64, &visited, 0),
        Equation::AtMost(_, _) => at_most(&visited, 0, 1),
        Equation::Equal(_, _) => equal(&visited, 0, 1),
        Equation::If {
            condition: _,
            then: _,
            otherwise: _,
        } => whole(y),
        Equation::Arrow(_, _) => whole(x),
        Equation::FollowedBy(_, _) => whole(x),
        Equation::Lesser(_, _) => lesser_of(&visited, 0, 1),
        Equation::Greater(_, _) => greater_of(&visited, 0, 1),
    }
}
