// A literal of a line against one of a clause.
ghost use Rattle.std.specs.Prelude.{◌+◌, ◌*◌, ◌≡◌};
ghost use Rattle.constraints.specs.Layout.{constraint_at};
ghost use Rattle.rules.specs.Factors.{says_most, matches_of};
ghost use Rattle.clauses.specs.Limits.{Small, SmallPattern};
ghost use Rattle.matching.specs.Content.{Readable};

use crate::factors::is_multiple;
use constraints::block_at;
use literals::Literal;
use rules::{Linear, Pattern};

// The literal is one of the m constraints from an offset on, unnegated, and that is a multiple of d.
fn is_most(file: &[u8], start: usize, m: usize, d: Linear, literal: Literal) -> bool
    requires { Readable file.now start m × Small d }
    ensures { result ≡ says_most (λ i. constraint_at file.now (start + 80 * i)) m d literal.0 }
{
    let atom = literal.atom();
    if literal.sign() {
        return false;
    }
    if atom < 576 {
        return false;
    }
    let i = atom - 576;
    if m <= i {
        return false;
    }
    is_multiple(file, block_at(start, i), d)
}

// The literal matches the pattern, where the file's m constraints stand from an offset on.
pub fn matches(file: &[u8], start: usize, m: usize, p: Pattern, literal: Literal) -> bool
    requires { Readable file.now start m × SmallPattern p }
    ensures { result ≡ matches_of (λ i. constraint_at file.now (start + 80 * i)) m p literal.0 }
{
    match p {
        Pattern::Yes(x) => literal.0 == Literal::positive(x).0,
        Pattern::No(x) => literal.0 == Literal::negative(x).0,
        Pattern::Most(d) => is_most(file, start, m, d, literal),
    }
}
