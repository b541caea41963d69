// "the defined one times one whole number of at least 1": a constraint of the file against one of a clause.
ghost use Rattle.std.specs.Prelude.{◌+◌, ◌≤◌, ◌≡◌, pos, nat_abs, length};
ghost use Rattle.constraints.specs.Layout.{constraint_at};
ghost use Rattle.constraints.specs.Linear.{bounded_of as of_constraint};
ghost use Rattle.rules.specs.Factors.{factor_from, read_off, is_multiple};
ghost use Rattle.rules.specs.Limited.{Limited};
ghost use Rattle.clauses.specs.Limits.{Small};
ghost use Rattle.matching.specs.Factors.{multiplied_by, Fitting};

use crate::content::{coefficient_at, coefficient_of, same_content};
use constraints::constraint_head;
use rules::Linear;

// A size, at least 1.
fn factor_from(z: i64) -> i64
    requires { nat_abs z ≤ 100000000000 }
    ensures { result ≡ pos (factor_from z) }
{
    z.abs().max(1)
}

// Where the factor is read: at the first variable, or in the bound where the file's constraint lacks that.
fn read_off(first: i64, bound: i64) -> i64
    ensures { result ≡ read_off first bound }
{
    if first == 0 { bound } else { first }
}

fn multiplied(factor: i64, d: Linear) -> Linear
    requires { Fitting factor d }
    ensures { result ≡ multiplied_by factor d }
{
    Linear {
        x: d.x,
        a: factor * d.a,
        y: d.y,
        b: factor * d.b,
        z: d.z,
        c: factor * d.c,
        bound: factor * d.bound,
    }
}

// The constraint at an offset is d times the factor that is read off. Where it lacks d's first variable and d does not, no factor is
// right, and none is multiplied: such a product need not fit.
pub fn is_multiple(file: &[u8], at: usize, d: Linear) -> bool
    requires { (at + 80 ≤ length file.now) × Limited (constraint_at file.now at) × Small d }
    ensures { result ≡ is_multiple d (of_constraint (constraint_at file.now at)) }
{
    let head = constraint_head(file, at);
    let first = coefficient_at(file, at, head.count as usize, d.x);
    if (first == 0) & (coefficient_of(d, d.x) != 0) {
        return false;
    }
    let factor = factor_from(read_off(first, head.bound));
    same_content(file, at, multiplied(factor, d), first)
}
