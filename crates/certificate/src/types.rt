// The streams of a node, as the rules of a certificate see them.
ghost use Rattle.std.specs.Prelude.{ℕ, ◌≤◌, ◌≡◌, length};
ghost use Rattle.node.specs.Equations.{byte_of};
ghost use Rattle.node.specs.Layout.{records_of};
ghost use Rattle.constraints.specs.Rules.{types_of};
ghost use Rattle.rules.specs.Types.{types_below};

use node::{StreamType, type_among};

// A type's byte, as in a node file.
fn byte_of(ty: StreamType) -> u8
    ensures { result ≡ byte_of ty }
{
    match ty {
        StreamType::Bool => 0,
        StreamType::Int => 1,
    }
}

// What each of the first n streams is, read once.
pub fn types_of(file: &[u8], n: usize) -> [u8; 64]
    requires { (n ≤ 64) × (n ≡ records_of file.now) }
    ensures long { length result ≡ 64 }
    ensures types { (x : ℕ) → types_of result x ≡ types_below file.now n x }
{
    let mut types = [2u8; 64];
    for i in 0..n {
        types[i] = byte_of(type_among(file, n, i));
    }
    types
}
