// The answers of reader, session, checker, flight list and look-up: accepted, or "refused with a number and a place". Each crate has the numbers of its
// own rules.
#![tactic(auto)]

ghost use Rattle.std.specs.Prelude.{◌≡◌};
ghost use Rattle.answers.specs.Answer.{refused};
ghost use Rattle.answers.specs.Checks.{check, check_all};

// The place of a refusal: "the file, a record, a constraint, a line or a part".
#[derive(Clone, Copy, Debug, PartialEq, Eq)]
pub enum Place {
    File,
    Record(usize),
    Constraint(usize),
    Line(usize),
    Base,
    Step,
}

// The number of the first rule that is broken, and where. The number is any: a program's line is promised for each (`report::write_line`).
#[derive(Clone, Copy, Debug, PartialEq, Eq)]
pub struct Refusal {
    pub number: usize,
    pub place: Place,
}

// What an accepted node file's answer carries: its stream count and its property stream.
#[derive(Clone, Copy, Debug, PartialEq, Eq)]
pub struct NodeValues {
    pub streams: usize,
    pub property: usize,
}

// What an accepted certificate's answer carries: "its depth and both line counts, as the trailer has them".
#[derive(Clone, Copy, Debug, PartialEq, Eq)]
pub struct CertificateValues {
    pub depth: usize,
    pub base: usize,
    pub step: usize,
}

// The verdict on a node file.
pub type NodeVerdict = Result<NodeValues, Refusal>;

// The verdict on a certificate.
pub type CertificateVerdict = Result<CertificateValues, Refusal>;

// The verdict of a turn of checking: the final one on the certificate, or none while lines are left.
pub type TurnVerdict = Option<CertificateVerdict>;

// The answer to an instant's call: its values are in the lent slice.
pub type InstantVerdict = Result<(), Refusal>;

// The answer to a node's table of ranges.
pub type ListedVerdict = Result<(), Refusal>;

// The answer to a look-up: the value.
pub type LookUpVerdict = Result<i64, Refusal>;

// A refusal in place of any answer.
pub fn refused<T>(number: usize, place: Place) -> Result<T, Refusal>
    ensures { result ≡ refused number place }
{
    Err(Refusal { number, place })
}

// One test: where it fails, this refusal.
pub fn check(ok: bool, number: usize, place: Place) -> Result<(), Refusal>
    ensures { result ≡ check ok number place (Ok tt) }
{
    if ok { Ok(()) } else { refused(number, place) }
}

// One test over all records: where it fails at some, this refusal of the lowest.
pub fn check_records(lowest: Option<usize>, number: usize) -> Result<(), Refusal>
    ensures { result ≡ check_all lowest number Place.Record (Ok tt) }
{
    match lowest {
        Some(i) => refused(number, Place::Record(i)),
        None => Ok(()),
    }
}
