// The results of each operator, "each operand by itself anywhere in its range". Ends are within ±4,000,000,000 here, and so no sum
// and no product leaves 64 bits.
ghost use Rattle.std.specs.Prelude.{◌≡◌, ◌&&◌};
ghost use Rattle.ranges.specs.Table.{range_in, SmallEnds, AllSmall};
ghost use Rattle.ranges.specs.Results.{is_inside, single, sum_of, difference_of, multiple_of, lesser_of, greater_of, ends, all_inside};

use crate::table::{Range, range_at};
use integers::{greater, lesser};
use node::Equation;

// Whether a range lies inside another.
#[tactic(auto, unfolding(crate::specs::Results::is_inside))]
fn is_inside(outer: Range, inner: Range) -> bool
    ensures { result ≡ is_inside outer inner }
{
    outer.least <= inner.least && inner.greatest <= outer.greatest
}

fn are_inside(outer: Range, a: Range, b: Range) -> bool
    ensures { result ≡ (is_inside outer a && is_inside outer b) }
{
    is_inside(outer, a) && is_inside(outer, b)
}

// K
fn constant(k: i32) -> Range
    ensures { result ≡ single k }
{
    let k = i64::from(k);
    Range {
        least: k,
        greatest: k,
    }
}

// The results of an operator that rise with both operands: the least are of the least ends, and the greatest of the greatest.
fn rising<F: Fn(i64, i64) -> i64>(op: F, a: Range, b: Range) -> Range
    requires { F.pre op a.least b.least × F.pre op a.greatest b.greatest }
    ensures { F.post op a.least b.least result.least × F.post op a.greatest b.greatest result.greatest }
{
    Range {
        least: op(a.least, b.least),
        greatest: op(a.greatest, b.greatest),
    }
}

// a + b
fn sum(a: Range, b: Range) -> Range
    requires { SmallEnds a × SmallEnds b }
    ensures { result ≡ sum_of a b }
{
    rising(|x, y| x + y, a, b)
}

// a - b
fn difference(a: Range, b: Range) -> Range
    requires { SmallEnds a × SmallEnds b }
    ensures { result ≡ difference_of a b }
{
    Range {
        least: a.least - b.greatest,
        greatest: a.greatest - b.least,
    }
}

// K * a
#[tactic(auto, unfolding(crate::specs::Results::multiple_of))]
fn multiple(k: i32, a: Range) -> Range
    requires { SmallEnds a }
    ensures { result ≡ multiple_of k a }
{
    let k = i64::from(k);
    let x = k * a.least;
    let y = k * a.greatest;
    if 0 <= k {
        Range {
            least: x,
            greatest: y,
        }
    } else {
        Range {
            least: y,
            greatest: x,
        }
    }
}

// lesser of a and b
fn lesser_of(a: Range, b: Range) -> Range
    ensures { result ≡ lesser_of a b }
{
    rising(lesser, a, b)
}

// greater of a and b
fn greater_of(a: Range, b: Range) -> Range
    ensures { result ≡ greater_of a b }
{
    rising(greater, a, b)
}

// The range of an operand.
fn of(table: &[i64], s: u16) -> Range
    ensures { result ≡ range_in table.now s }
{
    range_at(table, usize::from(s))
}

// 72, of an int stream: the results of its operator lie inside its range.
#[tactic(auto, using(crate::proofs::Insides::insides))]
pub fn results_inside(own: Range, e: Equation, table: &[i64]) -> bool
    requires { AllSmall table.now }
    ensures { result ≡ all_inside own (ends e (range_in table.now)) }
{
    match e {
        Equation::Input
        | Equation::Not(_)
        | Equation::And(_, _)
        | Equation::Or(_, _)
        | Equation::Same(_, _)
        | Equation::AtMost(_, _)
        | Equation::Equal(_, _) => true,
        Equation::Constant(k) => is_inside(own, constant(k)),
        Equation::Sum(a, b) => is_inside(own, sum(of(table, a), of(table, b))),
        Equation::Difference(a, b) => is_inside(own, difference(of(table, a), of(table, b))),
        Equation::Multiple(k, a) => is_inside(own, multiple(k, of(table, a))),
        Equation::If {
            then: a,
            otherwise: b,
            ..
        }
        | Equation::Arrow(a, b)
        | Equation::FollowedBy(a, b) => are_inside(own, of(table, a), of(table, b)),
        Equation::Lesser(a, b) => is_inside(own, lesser_of(of(table, a), of(table, b))),
        Equation::Greater(a, b) => is_inside(own, greater_of(of(table, a), of(table, b))),
    }
}
