// Rules 12 to 14, each as one test of the trailer.
ghost use Rattle.std.specs.Prelude.{◌≡◌};
ghost use Rattle.constraints.specs.Rules.{fixed_ok, counts_ok, distance_ok, types_of};

use crate::layout::Trailer;

// Rule 12: of all versions, 2 alone passes.
pub fn fixed_ok(t: Trailer) -> bool
    ensures { result ≡ fixed_ok 2 t }
{
    (t.first == 0x4B) & (t.second == 0x43) & (t.version == 2) & (t.zeros == 0)
}

// Rule 13.
pub fn counts_ok(t: Trailer) -> bool
    ensures { result ≡ counts_ok t }
{
    (1 <= t.depth) & (t.depth <= 8) & (t.constraints <= 256)
}

// Rule 14.
pub fn distance_ok(t: Trailer, size: usize) -> bool
    ensures { result ≡ distance_ok t size }
{
    let distance = t.distance as usize;
    let constraints = t.constraints as usize;
    let base = t.base as usize;
    let step = t.step as usize;
    (distance == 16 + 80 * (constraints + base + step)) & (distance <= size)
}

// What a stream is: 0 a bool, 1 an int, else none. A number, for the definition `types_of`, which rule 15 and the theorems cite, has one for each index.
pub fn type_at(types: &[u8], x: usize) -> u8
    ensures { result ≡ types_of types.now x }
{
    types.get(x).copied().unwrap_or(2)
}
