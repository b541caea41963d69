// The check of a node's table, in the paper's order: "after 23, 7 and 8" all of 71, then 72.
ghost use Rattle.std.specs.Prelude.{◌≤◌, ◌≡◌};
ghost use Rattle.answers.specs.Answer.{accepted};
ghost use Rattle.answers.specs.Checks.{every, lowest};
ghost use Rattle.node.specs.Layout.{records_of};
ghost use Rattle.node.specs.Verdict.{verdict_of};
ghost use Rattle.ranges.specs.Table.{AllSmall};
ghost use Rattle.ranges.specs.Listing.{ends_ok, results_ok, table_verdict, listing_of};

use crate::refusals;
use crate::results::results_inside;
use crate::table::{range_at, range_ok};
use answers::{ListedVerdict, NodeValues, Place, check, check_records};
use node::{StreamType, equation_among, type_among, verdict};

// Each of the n streams has two ends as 71 asks.
fn are_ok(file: &[u8], n: usize, table: &[i64]) -> bool
    requires { (n ≡ records_of file.now) × (n ≤ 64) }
    ensures { result ≡ every (ends_ok file.now table.now) n }
{
    (0..n).all(|i| range_ok(type_among(file, n, i), range_at(table, i)))
}

// An accepted node's file, of n streams, with a table that 71 passes.
#[derive(Clone, Copy)]
struct Ranged<'a> {
    file: &'a [u8],
    n: usize,
    table: &'a [i64],
    ghost counted: { (n ≡ records_of file.now) × (n ≤ 64) },
    ghost small: { AllSmall table.now },
}

impl Ranged<'_> {
    // 72, of stream i.
    fn is_listed(&self, i: usize) -> bool
        requires { i ≤ 64 }
        ensures { result ≡ results_ok self.now.file.now self.now.table.now i }
    {
        match type_among(self.file, self.n, i) {
            StreamType::Bool => true,
            StreamType::Int => {
                let own = range_at(self.table, i);
                results_inside(own, equation_among(self.file, self.n, i), self.table)
            }
        }
    }

    // The lowest stream with results outside its range.
    fn first_outside(&self) -> Option<usize>
        ensures { result ≡ lowest (results_ok self.now.file.now self.now.table.now) self.now.n }
    {
        (0..self.n).find(|i| !self.is_listed(*i))
    }
}

// The checks of an accepted node's table.
fn listed_on(file: &[u8], node: NodeValues, table: &[i64]) -> ListedVerdict
    requires { verdict_of file.now ≡ accepted node }
    ensures { result ≡ table_verdict file.now table.now }
{
    let n = node.streams;
    check(table.len() == 2 * n, refusals::TABLE, Place::File)?;
    check(are_ok(file, n, table), refusals::TABLE, Place::File)?;
    let ranged = Ranged { file, n, table };
    check_records(ranged.first_outside(), refusals::NOT_INSIDE)
}

// The answer to a node and its table of ranges: least and greatest of stream 0, of stream 1, and on.
pub fn listed(file: &[u8], table: &[i64]) -> ListedVerdict
    ensures { result ≡ listing_of file.now table.now }
{
    listed_on(file, verdict(file)?, table)
}
