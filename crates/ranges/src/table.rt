// The table of ranges: "two ends a stream".
ghost use Rattle.std.specs.Prelude.{◌≤◌, ◌≡◌};
ghost use Rattle.ranges.specs.Table.{range_in, range_ok};

use node::StreamType;
use streams::number_at;

// The least and the greatest number of a range.
#[derive(Clone, Copy)]
pub struct Range {
    pub least: i64,
    pub greatest: i64,
}

// "±4,000,000,000"
const LARGEST: i64 = 4_000_000_000;

// The range of stream i; past the table's end, 0 to 0.
pub fn range_at(table: &[i64], i: usize) -> Range
    requires { i ≤ 65535 }
    ensures { result ≡ range_in table.now i }
{
    Range {
        least: number_at(table, 2 * i),
        greatest: number_at(table, 2 * i + 1),
    }
}

// 71, of a stream's two ends.
#[tactic(auto, unfolding(crate::specs::Table::range_ok))]
pub fn range_ok(ty: StreamType, r: Range) -> bool
    ensures { result ≡ range_ok ty r }
{
    match ty {
        StreamType::Bool => r.least == 0 && r.greatest == 0,
        StreamType::Int => -LARGEST <= r.least && r.least <= r.greatest && r.greatest <= LARGEST,
    }
}
