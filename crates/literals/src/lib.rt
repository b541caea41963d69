// A literal by value: "A literal is 2·atom, plus 1 if negated".
#![tactic(auto)]

ghost use Rattle.std.specs.Prelude.{◌≡◌};
ghost use Rattle.literals.specs.Literals.{positive, negative, atom_of, is_negated, opposite_of};

// Its number, which is wider than a file's field, so that each atom has both literals.
#[derive(Clone, Copy, PartialEq, Eq)]
pub struct Literal(pub usize);

impl Literal {
    // Both stand, `positive` and `negative`: the paper names them apart, and one with a sign beside the atom is no plainer.
    pub fn positive(atom: u32) -> Literal
        ensures { result.0 ≡ positive atom }
    {
        Literal(2 * (atom as usize))
    }

    pub fn negative(atom: u32) -> Literal
        ensures { result.0 ≡ negative atom }
    {
        Literal(2 * (atom as usize) + 1)
    }

    // "the same atom with the other sign"
    pub fn opposite(self) -> Literal
        ensures { result.0 ≡ opposite_of self.0 }
    {
        let l = self.0;
        if l % 2 == 1 {
            Literal(l - 1)
        } else {
            Literal(l + 1)
        }
    }

    pub fn atom(self) -> usize
        ensures { result ≡ atom_of self.0 }
    {
        self.0 / 2
    }

    // Whether it is negated.
    pub fn sign(self) -> bool
        ensures { result ≡ is_negated self.0 }
    {
        self.0 % 2 == 1
    }
}
