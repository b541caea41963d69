// The rules of a node file, each as one test of the trailer or of a record.
ghost use Rattle.std.specs.Prelude.{◌≡◌};
ghost use Rattle.node.specs.Equations.{type_of};
ghost use Rattle.node.specs.Layout.{type_byte_among};
ghost use Rattle.node.specs.Rules.{length_ok, fixed_ok, counts_ok, distance_ok, within, constant_ok, unused_ok, shape_ok, is_stream, operands_ok, has_type, typed, types_ok, property_ok};

use crate::equation::StreamType;
use crate::layout::{Record, Trailer, type_byte_among};
use crate::table::{Limit, OPERATORS, Operand, Row, Wanted, reads, row_of};

// Rule 1.
#[tactic(auto, unfolding(crate::specs::Rules::length_ok))]
pub fn length_ok(size: usize) -> bool
    ensures { result ≡ length_ok size }
{
    (16..=65535).contains(&size)
}

// Rule 2.
#[tactic(auto, unfolding(crate::specs::Rules::fixed_ok))]
pub fn fixed_ok(t: Trailer) -> bool
    ensures { result ≡ fixed_ok t }
{
    t.first == 0x4C && t.second == 0x4E && t.version == 1 && t.zero == 0 && t.rest == 0
}

// Rule 3.
#[tactic(auto, unfolding(crate::specs::Rules::counts_ok))]
pub fn counts_ok(t: Trailer) -> bool
    ensures { result ≡ counts_ok t }
{
    (1..=64).contains(&t.streams) && t.property < t.streams
}

// Rule 4.
#[tactic(auto, unfolding(crate::specs::Rules::distance_ok))]
pub fn distance_ok(t: Trailer, size: usize) -> bool
    ensures { result ≡ distance_ok t size }
{
    let distance = t.distance as usize;
    let streams = t.streams as usize;
    distance == 16 + 16 * streams && distance <= size
}

// K against its rule.
fn constant_ok(limit: Limit, ty: u8, k: i32) -> bool
    ensures { result ≡ constant_ok limit (type_of ty) k }
{
    match limit {
        Limit::Zero => k == 0,
        Limit::Value => match StreamType::from(ty) {
            StreamType::Bool => (0..=1).contains(&k),
            StreamType::Int => (-1000000000..=1000000000).contains(&k),
        },
        Limit::Factor => (-1000000000..=1000000000).contains(&k),
    }
}

// What the operator does not use is zero.
#[tactic(auto, unfolding(crate::specs::Rules::unused_ok))]
fn unused_ok(row: Row, r: Record) -> bool
    ensures { result ≡ unused_ok row r }
{
    (reads(row.a) || r.a == 0)
        && (reads(row.b) || r.b == 0)
        && (reads(row.c) || r.c == 0)
        && r.rest == 0
}

// Rule 5.
#[tactic(auto, unfolding(crate::specs::Rules::shape_ok))]
pub fn shape_ok(r: Record) -> bool
    ensures { result ≡ shape_ok r }
{
    let row = row_of(r.op);
    r.op < OPERATORS && r.ty <= 1 && constant_ok(row.k, r.ty, r.k) && unused_ok(row, r)
}

// An operand that is read is below n.
fn is_stream(operand: Operand, n: usize, x: usize) -> bool
    ensures { result ≡ is_stream operand n x }
{
    !reads(operand) || x < n
}

// Rule 6.
#[tactic(auto, unfolding(crate::specs::Rules::operands_ok))]
pub fn operands_ok(n: usize, r: Record) -> bool
    ensures { result ≡ operands_ok n r }
{
    let row = row_of(r.op);
    is_stream(row.a, n, r.a as usize)
        && is_stream(row.b, n, r.b as usize)
        && is_stream(row.c, n, r.c as usize)
}

// A type byte is the one that is wanted, where own is the record's.
fn has_type(wanted: Wanted, own: u8, ty: u8) -> bool
    ensures { result ≡ has_type wanted own ty }
{
    match wanted {
        Wanted::ABool => ty == 0,
        Wanted::AnInt => ty == 1,
        Wanted::Own => ty == own,
    }
}

// An operand that is read is of the type that is wanted.
fn is_typed(operand: Operand, own: u8, ty: u8) -> bool
    ensures { result ≡ typed operand own ty }
{
    match operand {
        Operand::Unused => true,
        Operand::Now(wanted) | Operand::Before(wanted) => has_type(wanted, own, ty),
    }
}

// Rule 7, in a file of n records.
#[tactic(auto, unfolding(crate::specs::Rules::types_ok))]
pub fn types_ok(file: &[u8], n: usize, r: Record) -> bool
    ensures { result ≡ types_ok (type_byte_among file.now n) r }
{
    let row = row_of(r.op);
    has_type(row.own, r.ty, r.ty)
        && is_typed(row.a, r.ty, type_byte_among(file, n, r.a as usize))
        && is_typed(row.b, r.ty, type_byte_among(file, n, r.b as usize))
        && is_typed(row.c, r.ty, type_byte_among(file, n, r.c as usize))
}

// Rule 8.
#[tactic(auto, unfolding(crate::specs::Rules::property_ok))]
pub fn property_ok(ty: u8) -> bool
    ensures { result ≡ property_ok ty }
{
    ty == 0
}
