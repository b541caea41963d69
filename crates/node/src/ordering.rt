// The order of evaluation: each time the lowest record whose operands needed now are all placed. Where all of them are lower than
// their records it is the order of the records, and nothing is searched.
ghost use Rattle.std.specs.Prelude.{◌<◌, ◌≤◌, ◌≡◌, true, not, length, take, IfOk, IfSome};
ghost use Rattle.std.specs.Result.{result_err};
ghost use Rattle.answers.specs.Checks.{every, lowest};
ghost use Rattle.node.specs.declared.reading.RecordRule.TheVariants.{Shape, Operands};
ghost use Rattle.node.specs.Equations.{equation_at};
ghost use Rattle.node.specs.Layout.{records_of, record_of};
ghost use Rattle.node.specs.Ordering.{is_lower, lower_ok, needed_as, needs_in, HoldNeeds, HoldReaders, is_placed, ready_by, NoneReady, next_start};
ghost use Rattle.node.specs.Reads.{worked_out_order};
ghost use Rattle.node.specs.Verdict.{passes_of, never_placed};

use crate::layout::{Record, record_among};
use crate::table::{Operand, row_of};

// An operand that is read is below n and, where it is needed now, lower than its record. Another test than rule 6's `is_stream`, not another
// constant in it.
fn is_lower(operand: Operand, n: usize, i: usize, x: usize) -> bool
    ensures { result ≡ is_lower operand n i x }
{
    match operand {
        Operand::Unused => true,
        Operand::Now(_) => x < n && x < i,
        Operand::Before(_) => x < n,
    }
}

// All operands of record i are.
#[tactic(auto, unfolding(crate::specs::Ordering::lower_ok))]
fn lower_ok(n: usize, i: usize, r: Record) -> bool
    ensures { result ≡ lower_ok n i r }
{
    let row = row_of(r.op);
    is_lower(row.a, n, i, r.a as usize)
        && is_lower(row.b, n, i, r.b as usize)
        && is_lower(row.c, n, i, r.c as usize)
}

// All operands of all n records are.
pub fn in_record_order(file: &[u8], n: usize) -> bool
    requires { n ≡ records_of file.now }
    ensures { result ≡ every (λ i. lower_ok n i (record_of file.now i)) n }
{
    (0..n).all(|i| lower_ok(n, i, record_among(file, n, i)))
}

// What a record needs now, operand by operand.
#[derive(Clone, Copy)]
struct Needs {
    a: u8,
    b: u8,
    c: u8,
}

// What stands for an operand that is not needed now: no stream. It counts as placed.
const NO_STREAM: u8 = 64;

// An operand that is needed now, or no stream.
fn needed(operand: Operand, x: u16) -> u8
    ensures { result ≡ needed_as operand x }
{
    match operand {
        Operand::Now(_) => x.min(64) as u8,
        Operand::Unused | Operand::Before(_) => NO_STREAM,
    }
}

// What a record needs now, by the operator's row.
#[tactic(auto, unfolding(crate::specs::Ordering::needs_in))]
fn needs_of(r: Record) -> Needs
    ensures { result ≡ needs_in r }
{
    let row = row_of(r.op);
    Needs {
        a: needed(row.a, r.a),
        b: needed(row.b, r.b),
        c: needed(row.c, r.c),
    }
}

// What each of n records needs now.
fn needs_of_all(file: &[u8], n: usize) -> [Needs; 64]
    requires { (n ≡ records_of file.now) × (n ≤ 64) }
    ensures { HoldNeeds file.now n result }
{
    let mut needs = [Needs {
        a: NO_STREAM,
        b: NO_STREAM,
        c: NO_STREAM,
    }; 64];
    for i in 0..n {
        needs[i] = needs_of(record_among(file, n, i));
    }
    needs
}

// For each stream, the lowest of n records that needs it now, or n.
fn readers_of(needs: &[Needs; 64], n: usize) -> [u8; 256]
    requires { n ≤ 64 }
    ensures { HoldReaders needs.now n 0 result }
{
    let mut readers = [n as u8; 256];
    for i in (0..n).rev() {
        let record = needs[i];
        readers[record.a as usize] = i as u8;
        readers[record.b as usize] = i as u8;
        readers[record.c as usize] = i as u8;
    }
    readers
}

// Whether record i can be placed next.
#[tactic(auto, unfolding(crate::specs::Ordering::ready_by))]
fn is_ready(placed: &[bool; 256], needs: &[Needs; 64], i: usize) -> bool
    requires { i < 64 }
    ensures { result ≡ ready_by placed.now needs.now i }
{
    let record = needs[i];
    !placed[i]
        && placed[record.a as usize]
        && placed[record.b as usize]
        && placed[record.c as usize]
}

// The lowest of n records that can be placed next, where none below `start` can.
fn lowest_ready(placed: &[bool; 256], needs: &[Needs; 64], start: usize, n: usize) -> Option<usize>
    requires { (n ≤ 64) × NoneReady placed.now needs.now start }
    ensures found { result ≡ lowest (λ i. not (ready_by placed.now needs.now i)) n }
    ensures below { IfSome result (λ i. i < n) }
{
    (start..n).find(|i| is_ready(placed, needs, *i))
}

// The lowest of n records that is not placed.
fn lowest_unplaced(placed: &[bool; 256], n: usize) -> Option<usize>
    requires { n ≤ 64 }
    ensures { result ≡ lowest (is_placed placed.now) n }
{
    (0..n).find(|x| !placed[*x])
}

// Where the search goes on once record i is placed: at the lowest record that needs it, where that is below, else behind it. No other
// record has become ready.
fn next_start(i: usize, reader: usize) -> usize
    requires { i < 64 }
    ensures { result ≡ next_start i reader }
{
    if reader < i { reader } else { i + 1 }
}

// The order, where each of n records is placed; else the lowest that is not.
fn all_placed(streams: [usize; 64], placed: &[bool; 256], n: usize) -> Result<[usize; 64], usize>
    requires { n ≤ 64 }
    ensures unplaced_value { result_err result ≡ lowest (is_placed placed.now) n }
    ensures streams_value { IfOk result (λ order. order ≡ streams) }
{
    match lowest_unplaced(placed, n) {
        Some(i) => Err(i),
        None => Ok(streams),
    }
}

// The order by searching, or the lowest record that is never placed.
pub fn searched_order(file: &[u8], n: usize) -> Result<[usize; 64], usize>
    requires { (n ≡ records_of file.now) × (n ≤ 64) × (every (passes_of file.now n Shape) n ≡ true) × (every (passes_of file.now n Operands) n ≡ true) }
    ensures unplaced_value { result_err result ≡ never_placed (worked_out_order (equation_at file.now) n) n }
    ensures streams_value { IfOk result (λ streams. take n streams ≡ worked_out_order (equation_at file.now) n) }
{
    let needs = needs_of_all(file, n);
    let readers = readers_of(&needs, n);
    let mut streams = [0usize; 64];
    let mut placed = [false; 256];
    placed[NO_STREAM as usize] = true;
    let mut start = 0;
    for k in 0..n {
        let Some(i) = lowest_ready(&placed, &needs, start, n) else {
            return all_placed(streams, &placed, n);
        };
        streams[k] = i;
        placed[i] = true;
        start = next_start(i, readers[i] as usize);
    }
    all_placed(streams, &placed, n)
}
