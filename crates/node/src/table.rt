// The fixed table of operators: which operands each reads, of which type, whether they are needed now, and what its
// constant may be.
ghost use Rattle.std.specs.Prelude.{◌≡◌};
ghost use Rattle.node.specs.Table.{row_of, reads_it};

// The type that an operator asks for.
#[derive(Clone, Copy)]
pub enum Wanted {
    ABool,
    AnInt,
    // The record's own type; of the record itself, either.
    Own,
}

// What an operator does with an operand.
#[derive(Clone, Copy)]
pub enum Operand {
    Unused,
    // It is needed now, as this type.
    Now(Wanted),
    // It is read one instant before, as this type.
    Before(Wanted),
}

// What an operator asks of the constant K.
#[derive(Clone, Copy)]
pub enum Limit {
    // The operator does not use it: 0.
    Zero,
    // It is the stream's value: 0 or 1 for a bool.
    Value,
    // It is a factor.
    Factor,
}

#[derive(Clone, Copy)]
pub struct Row {
    pub own: Wanted,
    pub a: Operand,
    pub b: Operand,
    pub c: Operand,
    pub k: Limit,
}

// A constant calls no function, so each row is written out.

// 0: input
const INPUT: Row = Row {
    own: Wanted::Own,
    a: Operand::Unused,
    b: Operand::Unused,
    c: Operand::Unused,
    k: Limit::Zero,
};

// 1: K
const CONSTANT: Row = Row {
    own: Wanted::Own,
    a: Operand::Unused,
    b: Operand::Unused,
    c: Operand::Unused,
    k: Limit::Value,
};

// 2: not a
const NOT: Row = Row {
    own: Wanted::ABool,
    a: Operand::Now(Wanted::ABool),
    b: Operand::Unused,
    c: Operand::Unused,
    k: Limit::Zero,
};

// 3: a and b
const AND: Row = Row {
    own: Wanted::ABool,
    a: Operand::Now(Wanted::ABool),
    b: Operand::Now(Wanted::ABool),
    c: Operand::Unused,
    k: Limit::Zero,
};

// 4: a or b
const OR: Row = AND;

// 5: a same as b
const SAME: Row = AND;

// 6: a + b
const SUM: Row = Row {
    own: Wanted::AnInt,
    a: Operand::Now(Wanted::AnInt),
    b: Operand::Now(Wanted::AnInt),
    c: Operand::Unused,
    k: Limit::Zero,
};

// 7: a - b
const DIFFERENCE: Row = SUM;

// 8: K * a
const MULTIPLE: Row = Row {
    own: Wanted::AnInt,
    a: Operand::Now(Wanted::AnInt),
    b: Operand::Unused,
    c: Operand::Unused,
    k: Limit::Factor,
};

// 9: a at most b
const AT_MOST: Row = Row {
    own: Wanted::ABool,
    a: Operand::Now(Wanted::AnInt),
    b: Operand::Now(Wanted::AnInt),
    c: Operand::Unused,
    k: Limit::Zero,
};

// 10: a equal to b
const EQUAL: Row = AT_MOST;

// 11: if c then a else b
const IF: Row = Row {
    own: Wanted::Own,
    a: Operand::Now(Wanted::Own),
    b: Operand::Now(Wanted::Own),
    c: Operand::Now(Wanted::ABool),
    k: Limit::Zero,
};

// 12: a -> b
const ARROW: Row = Row {
    own: Wanted::Own,
    a: Operand::Now(Wanted::Own),
    b: Operand::Now(Wanted::Own),
    c: Operand::Unused,
    k: Limit::Zero,
};

// 13: a -> pre b
const FOLLOWED_BY: Row = Row {
    own: Wanted::Own,
    a: Operand::Now(Wanted::Own),
    b: Operand::Before(Wanted::Own),
    c: Operand::Unused,
    k: Limit::Zero,
};

// 14: lesser of a and b
const LESSER: Row = SUM;

// 15: greater of a and b
const GREATER: Row = SUM;

// How many operators there are.
pub const OPERATORS: u8 = 16;

// The row of an operator; past the table, that of an input.
#[tactic(auto, unfolding(crate::specs::Table::row_of))]
pub fn row_of(op: u8) -> Row
    ensures { result ≡ row_of op }
{
    match op {
        0 => INPUT,
        1 => CONSTANT,
        2 => NOT,
        3 => AND,
        4 => OR,
        5 => SAME,
        6 => SUM,
        7 => DIFFERENCE,
        8 => MULTIPLE,
        9 => AT_MOST,
        10 => EQUAL,
        11 => IF,
        12 => ARROW,
        13 => FOLLOWED_BY,
        14 => LESSER,
        15 => GREATER,
        _ => INPUT,
    }
}

// Whether an operator reads the operand at all.
pub fn reads(operand: Operand) -> bool
    ensures { result ≡ reads_it operand }
{
    matches!(operand, Operand::Now(_) | Operand::Before(_))
}
