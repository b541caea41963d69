// The two kinds of line, from the start of a buffer of at least 96 bytes on.
ghost use Rattle.std.specs.Prelude.{◌≤◌, ◌+◌, ◌++◌, length};
ghost use Rattle.report.specs.Line.{place_text, accepted_text, refused_text};
ghost use Rattle.report.specs.Words.{newline};
ghost use Rattle.report.specs.Written.{Written};

use crate::text::{put, put_field};
use answers::{CertificateValues, Place, Refusal};

pub fn put_accepted(out: &mut [u8], values: CertificateValues) -> usize
    requires { 96 ≤ length out.old }
    ensures { (Written out.old 0 (accepted_text values.depth values.base values.step ++ newline) out.new result)
        × (result ≤ 96) }
{
    let past_depth = put_field(out, 0, b"accepted depth ", values.depth);
    let past_base = put_field(out, past_depth, b" base ", values.base);
    let past_step = put_field(out, past_base, b" step ", values.step);
    put(out, past_step, b"\n")
}

pub fn put_refused(out: &mut [u8], refusal: Refusal) -> usize
    requires { 96 ≤ length out.old }
    ensures { (Written out.old 0 (refused_text refusal.number refusal.place ++ newline) out.new result)
        × (result ≤ 96) }
{
    let past = put_refusal(out, refusal);
    put(out, past, b"\n")
}

// A refusal's number and place, with no end of line.
pub fn put_refusal(out: &mut [u8], refusal: Refusal) -> usize
    requires { 60 ≤ length out.old }
    ensures { (Written out.old 0 (refused_text refusal.number refusal.place) out.new result) × (result ≤ 60) }
{
    let past_number = put_field(out, 0, b"refused ", refusal.number);
    put_place(out, past_number, refusal.place)
}

// A place has at most 32 bytes.
fn put_place(out: &mut [u8], at: usize, place: Place) -> usize
    requires { at + 32 ≤ length out.old }
    ensures { (Written out.old at (place_text place) out.new result) × (result ≤ at + 32) }
{
    match place {
        Place::File => put(out, at, b" file"),
        Place::Record(i) => put_field(out, at, b" record ", i),
        Place::Constraint(i) => put_field(out, at, b" constraint ", i),
        Place::Line(i) => put_field(out, at, b" line ", i),
        Place::Base => put(out, at, b" base"),
        Place::Step => put(out, at, b" step"),
    }
}
