// The recursion, over a table of what is known: entry 64·t + s is stream s at instant t. So each is worked out once, and what rests on it in
// many ways does not visit it again.
ghost use Rattle.look_up.specs.Looking.{Ready, LookedUp, ReadyTo, Followed};

use crate::visits::{Visit, combined, first_visit, second_visit};
use node::equation_among;

// Follows one visit. What is known already costs no call.
#[cycle(follow_look)]
fn follow(
    file: &[u8],
    n: usize,
    table: &mut [Option<i64>; 1024],
    visit: Option<Visit>,
) -> Option<i64>
    requires { ReadyTo file.now n visit }
    ensures { Followed file.now visit table.old table.new result }
{
    let Some(visit) = visit else {
        return Some(0);
    };
    let t = visit.instant;
    let s = visit.stream as usize;
    if let Some(x) = table[64 * t + s] {
        return Some(x);
    }
    look(file, n, table, t, s)
}

// Works out stream s at instant t into the table; none where a visited value leaves 64 signed bits: nothing more is visited then, for the
// wanted value rests on each that is.
#[cycle(follow_look)]
pub fn look(
    file: &[u8],
    n: usize,
    table: &mut [Option<i64>; 1024],
    t: usize,
    s: usize,
) -> Option<i64>
    requires { Ready file.now n t s }
    ensures { LookedUp file.now t s table.old table.new result }
{
    let e = equation_among(file, n, s);
    let x = follow(file, n, table, first_visit(e, t))?;
    let y = follow(file, n, table, second_visit(e, t, x == 1))?;
    let at = 64 * t + s;
    let z = combined(e, table[at].unwrap_or(0), x, y)?;
    table[at] = Some(z);
    Some(z)
}
