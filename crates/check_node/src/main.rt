// Says the verdict on each node file that an argument names, or on node.bin in the current folder where there is none.
// An unopenable file is empty; of a longer one the first 65,536 bytes are read, which is enough to refuse its length.
#![tactic(auto)]

use answers::NodeValues;
use files::{argument_count, argument_file, read_file, say_argument};
use std::rt::{Env, Files};

// One line: the verdict, and of an accepted file also its inputs and how long its note is. A write that fails is passed over.
fn say_verdict(rt: &impl Print, file: &[u8]) {
    match node::verdict(file) {
        Ok(NodeValues { streams, property }) => {
            let inputs = node::input_count(file);
            let note = node::note(file).len();
            let _ = println!(rt;
                "accepted streams {streams} property {property} inputs {inputs} note {note}"
            );
        }
        Err(refusal) => report::say_verdict(rt, Err(refusal)),
    }
}

fn check_argument(rt: &(impl Env + Files + Print), i: usize) {
    let mut buffer = [0u8; 65536];
    say_argument(rt, i);
    say_verdict(rt, argument_file(rt, i, &mut buffer));
}

fn check_here(rt: &(impl Files + Print)) {
    let mut buffer = [0u8; 65536];
    let n = read_file(rt, b"node.bin", &mut buffer);
    say_verdict(rt, &buffer[..n]);
}

fn main(rt: HostRuntime) {
    let count = argument_count(&rt);
    if count < 2 {
        check_here(&rt);
    }
    for i in 1..count {
        check_argument(&rt, i);
    }
}
