// The literals that a clause of an equation has, before they are looked up in a certificate.

// A linear constraint of at most three variables: a·x + b·y + c·z is at most bound.
#[derive(Clone, Copy)]
pub struct Linear {
    pub x: u32,
    pub a: i64,
    pub y: u32,
    pub b: i64,
    pub z: u32,
    pub c: i64,
    pub bound: i64,
}

// One literal of a clause.
#[derive(Clone, Copy)]
pub enum Pattern {
    // A bool variable.
    Yes(u32),
    // Its negation.
    No(u32),
    // A constraint, unnegated.
    Most(Linear),
}

// A clause of one to three literals; past the count the last one stands again. No enum of three variants: `matching::is_clause`
// answers for every count.
#[derive(Clone, Copy)]
pub struct Clause {
    pub count: usize,
    pub first: Pattern,
    pub second: Pattern,
    pub third: Pattern,
}

// Where in a window an equation stands: at the base's first offset, which is instant 0, at the step's first offset, or later.
#[derive(Clone, Copy)]
pub enum Position {
    Opening,
    Entry,
    Inner,
}
