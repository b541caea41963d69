// The table at the start: just the inputs of a history are known, each at its stream and instant.
ghost use Rattle.std.specs.Prelude.{suc, ◌<◌, ◌≤◌, ◌≡◌, length};
ghost use Rattle.node.specs.Inputs.{inputs_below};
ghost use Rattle.look_up.specs.Looking.{StreamSet, HoldsHistory};

use crate::history::History;
use histories::inputs_at;
use node::is_input_among;
use streams::number_at;

// Sets stream s to its inputs, number j of each instant.
fn set_stream(history: &History, table: &mut [Option<i64>; 1024], s: usize, j: usize)
    requires { (s < 64) × (history.now.count ≤ 16) × (length table.old ≡ 1024) }
    ensures { StreamSet history.now.inputs.now history.now.m j s history.now.count table.old table.new }
{
    for t in 0..history.count {
        table[64 * t + s] = Some(number_at(inputs_at(history.inputs, history.m, t), j));
    }
}

// Sets stream s where it is an input, number j of them; how many inputs there are with it.
fn add_stream(history: &History, table: &mut [Option<i64>; 1024], s: usize, j: usize) -> usize
    requires { (history.now.count ≤ 16) × (s < history.now.n) × (j ≡ inputs_below history.now.file.now s) × HoldsHistory history.now.file.now history.now.count history.now.inputs.now s table.old }
    ensures { (result ≡ inputs_below history.now.file.now (suc s)) × HoldsHistory history.now.file.now history.now.count history.now.inputs.now (suc s) table.new }
{
    if is_input_among(history.file, history.n, s) {
        set_stream(history, table, s, j);
        return j + 1;
    }
    j
}

// Sets the inputs of all streams, in a table that knows nothing yet.
pub fn filled(history: &History, table: &mut [Option<i64>; 1024])
    requires { (history.now.count ≤ 16) × HoldsHistory history.now.file.now history.now.count history.now.inputs.now 0 table.old }
    ensures { HoldsHistory history.now.file.now history.now.count history.now.inputs.now history.now.n table.new }
{
    let mut j = 0;
    for s in 0..history.n {
        j = add_stream(history, table, s, j);
    }
}
