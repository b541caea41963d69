// Checks cert.bin against node.bin, both in the current folder, and prints the line of the verdict. An unopenable file is empty; of a
// longer one the first 65,536 bytes are read, which is enough to refuse its length.
#![tactic(auto)]

use files::read_file;

fn main(rt: HostRuntime) {
    let mut node = [0u8; 65536];
    let mut cert = [0u8; 65536];
    let n = read_file(&rt, b"node.bin", &mut node);
    let m = read_file(&rt, b"cert.bin", &mut cert);
    report::say_verdict(&rt, certificate::verdict(&node[..n], &cert[..m]));
}
