// Says whether a node is listed with its table of ranges, for each pair of files that two arguments in a row name, a node file and a
// table file, after the table file's name. An unopenable file is empty; of a longer one the first 65,536 bytes are read.
#![tactic(auto)]

ghost use Rattle.std.specs.Prelude.{◌≡◌};
ghost use Rattle.ranges.specs.Listing.{listing_of};
ghost use Rattle.check_ranges.specs.Table.{size_of, table_of};

use answers::ListedVerdict;
use files::{argument_count, argument_file, say_argument};
use numbers::read_numbers;
use ranges::listed;
use std::rt::{Env, Files};

// How many numbers a table file has: 8 bytes each. One whose length is no multiple of 8 has none, and more than 129, which is one
// more than the largest node's table has, are 129.
fn size_of(bytes: &[u8]) -> usize
    ensures { result ≡ size_of bytes.now }
{
    if bytes.len() % 8 != 0 {
        return 0;
    }
    (bytes.len() / 8).min(129)
}

// The answer to a node file and a table file.
fn listing(node: &[u8], bytes: &[u8]) -> ListedVerdict
    ensures { result ≡ listing_of node.now (table_of bytes.now) }
{
    let mut table = [0i64; 129];
    read_numbers(bytes, &mut table);
    listed(node, &table[..size_of(bytes)])
}

// A write that fails is passed over.
fn say_verdict(rt: &impl Print, verdict: ListedVerdict) {
    match verdict {
        Ok(()) => {
            let _ = println!(rt; "listed");
        }
        Err(refusal) => report::say_verdict(rt, Err(refusal)),
    }
}

// The pair that two arguments name.
fn check_pair(rt: &(impl Env + Files + Print), node_number: usize, table_number: usize) {
    let mut node = [0u8; 65536];
    let mut table = [0u8; 65536];
    say_argument(rt, table_number);
    let node = argument_file(rt, node_number, &mut node);
    let table = argument_file(rt, table_number, &mut table);
    say_verdict(rt, listing(node, table));
}

// Argument 0 is the program's own name. A last node file without a table file's name has an empty table.
fn main(rt: HostRuntime) {
    let pairs = argument_count(&rt) / 2;
    for pair in 0..pairs {
        check_pair(&rt, 2 * pair + 1, 2 * pair + 2);
    }
}
