// The line of a call of a session, from the start of a buffer of at least 1,440 bytes on. None is longer than 1,439: `answered`, 65
// values of at most 22 bytes, and the end.
ghost use Rattle.std.specs.Prelude.{◌+◌, ◌*◌, ◌≤◌, ◌≡◌, length};
ghost use Rattle.report.specs.Call.{signed_text, values_text, is_kept, kept_text, answered_text, not_answered_text, call_line};
ghost use Rattle.report.specs.Written.{Written};

use crate::lines::put_refusal;
use crate::text::{put, put_field};
use answers::{InstantVerdict, Refusal};
use integers::magnitude;

// What a slice holds before each call, so that its line can say whether a refusal kept it.
pub const MARK: i64 = 7;

// A signed number, after a space.
fn put_signed(out: &mut [u8], at: usize, x: i64) -> usize
    requires { at + 22 ≤ length out.old }
    ensures { (Written out.old at (signed_text x) out.new result) × (result ≤ at + 22) }
{
    let n = magnitude(x) as usize;
    if x < 0 {
        put_field(out, at, b" -", n)
    } else {
        put_field(out, at, b" ", n)
    }
}

fn put_values(out: &mut [u8], at: usize, values: &[i64]) -> usize
    requires { at + 22 * length values.now ≤ length out.old }
    ensures { (Written out.old at (values_text values.now) out.new result)
        × (result ≤ at + 22 * length values.now) }
{
    let mut past = at;
    for x in values {
        past = put_signed(out, past, *x);
    }
    past
}

fn is_kept(slice: &[i64]) -> bool
    ensures { result ≡ is_kept slice.now }
{
    slice.iter().all(|&x| x == MARK)
}

fn put_kept(out: &mut [u8], at: usize, slice: &[i64]) -> usize
    requires { at + 9 ≤ length out.old }
    ensures { (Written out.old at (kept_text slice.now) out.new result) × (result ≤ at + 9) }
{
    if is_kept(slice) {
        put(out, at, b" kept\n")
    } else {
        put(out, at, b" CHANGED\n")
    }
}

fn put_answered(out: &mut [u8], values: &[i64]) -> usize
    requires { (1440 ≤ length out.old) × (length values.now ≤ 65) }
    ensures { (Written out.old 0 (answered_text values.now) out.new result) × (result ≤ 1440) }
{
    let past_word = put(out, 0, b"answered");
    let past_values = put_values(out, past_word, values);
    put(out, past_values, b"\n")
}

fn put_not_answered(out: &mut [u8], refusal: Refusal, slice: &[i64]) -> usize
    requires { 1440 ≤ length out.old }
    ensures { (Written out.old 0 (not_answered_text refusal.number refusal.place slice.now) out.new result)
        × (result ≤ 1440) }
{
    let past = put_refusal(out, refusal);
    put_kept(out, past, slice)
}

pub fn put_call(out: &mut [u8], answer: InstantVerdict, slice: &[i64]) -> usize
    requires { (1440 ≤ length out.old) × (length slice.now ≤ 65) }
    ensures { (Written out.old 0 (call_line answer slice.now) out.new result)
        × (result ≤ 1440) }
{
    match answer {
        Ok(()) => put_answered(out, slice),
        Err(refusal) => put_not_answered(out, refusal, slice),
    }
}
