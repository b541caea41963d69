// The decoded record: its type, and its equation with stream numbers and constant.
ghost use Rattle.std.specs.Prelude.{◌≡◌};
ghost use Rattle.node.specs.Equations.{type_of, decoded, type_among, equation_among};

use crate::layout::{Record, record_among, type_byte_among};

// The type of a stream.
#[derive(Clone, Copy, Debug, PartialEq, Eq)]
pub enum StreamType {
    Bool,
    Int,
}

// The type that a type byte gives; rule 5 asks for 0 or 1.
impl From<u8> for StreamType {
    ghost from_gives = { λ byte ty. ty ≡ type_of byte };

    fn from(byte: u8) -> StreamType {
        match byte {
            0 => StreamType::Bool,
            _ => StreamType::Int,
        }
    }
}

// One case an operator, 0 to 15 in order: "A record is one of fourteen operators, each with its own operands", and
// "Operators 14, lesser of a and b, and 15, greater, are added". Operands stand in the order of the operator's value,
// K·a or a, b; where c comes first they have names.
#[derive(Clone, Copy)]
pub enum Equation {
    Input,
    Constant(i32),
    Not(u16),
    And(u16, u16),
    Or(u16, u16),
    Same(u16, u16),
    Sum(u16, u16),
    Difference(u16, u16),
    Multiple(i32, u16),
    AtMost(u16, u16),
    Equal(u16, u16),
    If {
        condition: u16,
        then: u16,
        otherwise: u16,
    },
    // a -> b
    Arrow(u16, u16),
    // a -> pre b
    FollowedBy(u16, u16),
    Lesser(u16, u16),
    Greater(u16, u16),
}

// The equation of a record; past the table, an input.
impl From<Record> for Equation {
    ghost from_gives = { λ r e. e ≡ decoded r };

    #[tactic(auto, unfolding(crate::specs::Equations::decoded))]
    fn from(r: Record) -> Equation {
        match r.op {
            0 => Equation::Input,
            1 => Equation::Constant(r.k),
            2 => Equation::Not(r.a),
            3 => Equation::And(r.a, r.b),
            4 => Equation::Or(r.a, r.b),
            5 => Equation::Same(r.a, r.b),
            6 => Equation::Sum(r.a, r.b),
            7 => Equation::Difference(r.a, r.b),
            8 => Equation::Multiple(r.k, r.a),
            9 => Equation::AtMost(r.a, r.b),
            10 => Equation::Equal(r.a, r.b),
            11 => Equation::If {
                condition: r.c,
                then: r.a,
                otherwise: r.b,
            },
            12 => Equation::Arrow(r.a, r.b),
            13 => Equation::FollowedBy(r.a, r.b),
            14 => Equation::Lesser(r.a, r.b),
            15 => Equation::Greater(r.a, r.b),
            _ => Equation::Input,
        }
    }
}

// The equation of stream i of n.
pub fn equation_among(file: &[u8], n: usize, i: usize) -> Equation
    ensures { result ≡ equation_among file.now n i }
{
    Equation::from(record_among(file, n, i))
}

// The type of stream i of n.
#[tactic(auto, unfolding(crate::specs::Equations::type_among))]
pub fn type_among(file: &[u8], n: usize, i: usize) -> StreamType
    ensures { result ≡ type_among file.now n i }
{
    StreamType::from(type_byte_among(file, n, i))
}
