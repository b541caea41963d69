// The verdict on a node file: rules 1 to 8 in order, with 23 between 6 and 7, each over all its records first.
ghost use Rattle.std.specs.Prelude.{◌≡◌, ◌≤◌, take, IfOk};
ghost use Rattle.answers.specs.Answer.{answer_map};
ghost use Rattle.answers.specs.Checks.{lowest};
ghost use Rattle.node.specs.Equations.{equation_at};
ghost use Rattle.node.specs.Layout.{records_of, streams_of};
ghost use Rattle.node.specs.Reads.{worked_out_order, order_of};
ghost use Rattle.node.specs.Verdict.{passes_of, types_verdict, records_verdict, verdict_of};

use crate::layout::{record_among, trailer_of, type_byte_among};
use crate::ordering::{in_record_order, searched_order};
use crate::refusals;
use crate::rules::{
    counts_ok, distance_ok, fixed_ok, length_ok, operands_ok, property_ok, shape_ok, types_ok,
};
use answers::{NodeValues, NodeVerdict, Place, Refusal, check, check_records, refused};
use std::array;

// An accepted node file read: what its answer carries, and its order: stream `order[k]` is worked out as number k.
#[derive(Clone, Copy)]
pub struct ReadNode {
    pub values: NodeValues,
    pub order: [usize; 64],
}

// The rules that each record is held to by itself. An enum and no closure, since the definitions and theorems speak of them (`passes_of`).
#[derive(Clone, Copy)]
pub enum RecordRule {
    Shape,
    Operands,
    Types,
}

// Record i of a file of n streams keeps the rule.
fn passes(file: &[u8], n: usize, rule: RecordRule, i: usize) -> bool
    requires { n ≡ records_of file.now }
    ensures { result ≡ passes_of file.now n rule i }
{
    let record = record_among(file, n, i);
    match rule {
        RecordRule::Shape => shape_ok(record),
        RecordRule::Operands => operands_ok(n, record),
        RecordRule::Types => types_ok(file, n, record),
    }
}

// The lowest record that breaks the rule.
fn first_bad(file: &[u8], n: usize, rule: RecordRule) -> Option<usize>
    requires { n ≡ records_of file.now }
    ensures { result ≡ lowest (passes_of file.now n rule) n }
{
    (0..n).find(|i| !passes(file, n, rule, *i))
}

// Rules 7 and 8, of a file whose order is worked out. Always inlined, as `records_read` is: each call of its own would copy the order.
#[inline(always)]
fn types_read(
    file: &[u8],
    n: usize,
    property: usize,
    order: [usize; 64],
) -> Result<ReadNode, Refusal>
    requires { n ≡ records_of file.now }
    ensures verdict_value { answer_map (λ node. node.values) result ≡ types_verdict file.now n property }
    ensures order_value { IfOk result (λ node. node.order ≡ order) }
{
    check_records(first_bad(file, n, RecordRule::Types), refusals::TYPES)?;
    check(
        property_ok(type_byte_among(file, n, property)),
        refusals::PROPERTY,
        Place::Record(property),
    )?;
    let values = NodeValues {
        streams: n,
        property,
    };
    Ok(ReadNode { values, order })
}

// Rules 5 to 8 and 23, of a file whose trailer gives n and the property. Where each operand needed now is lower than its record, 6 and 23
// hold.
#[inline(always)]
fn records_read(file: &[u8], n: usize, property: usize) -> Result<ReadNode, Refusal>
    requires { (n ≡ records_of file.now) × (n ≤ 64) }
    ensures verdict_value { answer_map (λ node. node.values) result ≡ records_verdict file.now n property }
    ensures order_value { IfOk result (λ node. take n node.order ≡ worked_out_order (equation_at file.now) n) }
{
    check_records(first_bad(file, n, RecordRule::Shape), refusals::SHAPE)?;
    if in_record_order(file, n) {
        return types_read(file, n, property, array::from_fn(|k| k));
    }
    check_records(first_bad(file, n, RecordRule::Operands), refusals::OPERANDS)?;
    match searched_order(file, n) {
        Ok(order) => types_read(file, n, property, order),
        Err(i) => refused(refusals::ORDER, Place::Record(i)),
    }
}

// A node file read: the verdict, and of an accepted file the order of evaluation.
pub fn read(file: &[u8]) -> Result<ReadNode, Refusal>
    ensures verdict_value { answer_map (λ node. node.values) result ≡ verdict_of file.now }
    ensures order_value { IfOk result (λ node. take (streams_of file.now) node.order ≡ order_of file.now) }
{
    let size = file.len();
    check(length_ok(size), refusals::LENGTH, Place::File)?;
    let trailer = trailer_of(file);
    check(fixed_ok(trailer), refusals::FIXED_BYTES, Place::File)?;
    check(counts_ok(trailer), refusals::COUNTS, Place::File)?;
    check(distance_ok(trailer, size), refusals::DISTANCE, Place::File)?;
    records_read(file, trailer.streams as usize, trailer.property as usize)
}

// The verdict on a node file.
pub fn verdict(file: &[u8]) -> NodeVerdict
    ensures { result ≡ verdict_of file.now }
{
    Ok(read(file)?.values)
}
