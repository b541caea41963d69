// Prints the verdict's line on each pair of files that two arguments in a row name, a node file and a certificate, after the
// certificate's name.
#![tactic(auto)]

use files::{argument_count, argument_file, say_argument};
use std::rt::{Env, Files};

// The pair that two arguments name.
fn check_pair(rt: &(impl Env + Files + Print), node_number: usize, cert_number: usize) {
    let mut node = [0u8; 65536];
    let mut cert = [0u8; 65536];
    say_argument(rt, cert_number);
    let node = argument_file(rt, node_number, &mut node);
    let cert = argument_file(rt, cert_number, &mut cert);
    report::say_verdict(rt, certificate::verdict(node, cert));
}

// Argument 0 is the program's own name. A last node file without a certificate's name has an empty one.
fn main(rt: HostRuntime) {
    let pairs = argument_count(&rt) / 2;
    for pair in 0..pairs {
        check_pair(&rt, 2 * pair + 1, 2 * pair + 2);
    }
}
