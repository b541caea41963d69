// A verdict's line on standard output. No clause can say what is printed.
use crate::write_line;
use answers::CertificateVerdict;

// A refusal's line is the same whatever was refused. A write that fails is passed over.
pub fn say_verdict(rt: &impl Print, verdict: CertificateVerdict) {
    let mut line = [0u8; 96];
    let length = write_line(verdict, &mut line);
    let _ = rt.write_all(&line[..length]);
}
