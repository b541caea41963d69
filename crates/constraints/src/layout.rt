// The trailer, constraints and lines of a certificate file, field by field, and where each field stands.
ghost use Rattle.std.specs.Prelude.{◌+◌, ◌*◌, ◌<◌, ◌≤◌, ◌≡◌, length};
ghost use Rattle.std.specs.Int.{w64};
ghost use Rattle.std.proofs.Common.{Fits};
ghost use Rattle.constraints.specs.Layout.{trailer_of, head_at, term_at, line_head_at, literal_at, multiplier_at};

use crate::bytes::zeros_at;
use fields::Field;
use literals::Literal;

// The last 16 bytes.
#[derive(Clone, Copy)]
pub struct Trailer {
    pub first: u8,
    pub second: u8,
    pub version: u8,
    pub depth: u8,
    pub constraints: u16,
    pub base: u16,
    pub step: u16,
    pub zeros: u16,
    pub distance: u32,
}

// A constraint but for its terms.
#[derive(Clone, Copy)]
pub struct ConstraintHead {
    pub count: u8,
    pub zeros: bool,
    pub bound: i64,
}

// A term of a constraint.
#[derive(Clone, Copy)]
pub struct Term {
    pub stream: u16,
    pub offset: u8,
    pub zero: u8,
    pub coefficient: i64,
}

// A line but for its literals and multipliers. The kind is the file's byte: rule 16 refuses one that is none of the five.
#[derive(Clone, Copy)]
pub struct LineHead {
    pub kind: u8,
    pub count: u8,
    pub p: u16,
    pub q: u16,
    pub r: u16,
}

pub fn trailer_of(file: &[u8]) -> Trailer
    requires { 16 ≤ length file.now }
    ensures { result ≡ trailer_of file.now }
{
    let at = file.len() - 16;
    Trailer {
        first: file[at],
        second: file[at + 1],
        version: file[at + 2],
        depth: file[at + 3],
        constraints: u16::read_at(file, at + 4),
        base: u16::read_at(file, at + 6),
        step: u16::read_at(file, at + 8),
        zeros: u16::read_at(file, at + 10),
        distance: u32::read_at(file, at + 12),
    }
}

// Here and below the file and an offset stay two parameters: docs/GUARANTEES.md names these calls with what they ask.
pub fn constraint_head(file: &[u8], at: usize) -> ConstraintHead
    requires { at + 80 ≤ length file.now }
    ensures { result ≡ head_at file.now at }
{
    ConstraintHead {
        count: file[at],
        zeros: zeros_at(file, at + 1, 7),
        bound: i64::read_at(file, at + 8),
    }
}

// Term j, 0 to 7.
pub fn term_at(file: &[u8], at: usize, j: usize) -> Term
    requires { (at + 80 ≤ length file.now) × (j < 8) }
    ensures { result ≡ term_at file.now at j }
{
    let term = at + 16 + 8 * j;
    Term {
        stream: u16::read_at(file, term),
        offset: file[term + 2],
        zero: file[term + 3],
        coefficient: i32::read_at(file, term + 4) as i64,
    }
}

pub fn line_head(file: &[u8], at: usize) -> LineHead
    requires { at + 80 ≤ length file.now }
    ensures { result ≡ line_head_at file.now at }
{
    LineHead {
        kind: file[at],
        count: file[at + 1],
        p: u16::read_at(file, at + 2),
        q: u16::read_at(file, at + 4),
        r: u16::read_at(file, at + 6),
    }
}

// Literal j, 0 to 11.
pub fn literal_at(file: &[u8], at: usize, j: usize) -> Literal
    requires { (at + 80 ≤ length file.now) × (j < 12) }
    ensures { result.0 ≡ literal_at file.now at j }
{
    Literal(u16::read_at(file, at + 8 + 2 * j) as usize)
}

// Multiplier j, 0 to 11.
pub fn multiplier_at(file: &[u8], at: usize, j: usize) -> u32
    requires { (at + 80 ≤ length file.now) × (j < 12) }
    ensures { result ≡ multiplier_at file.now at j }
{
    u32::read_at(file, at + 32 + 4 * j)
}

// Where block i stands of those from an offset on: a constraint, or a line.
pub fn block_at(from: usize, i: usize) -> usize
    requires { Fits w64 (from + 80 * i) }
    ensures { result ≡ from + 80 * i }
{
    from + 80 * i
}
