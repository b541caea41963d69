// Numbers of 64 bits in a row, little-endian, as files of the programs have them.
#![tactic(auto)]

ghost use Rattle.std.specs.Prelude.{◌≡◌, length};
ghost use Rattle.numbers.specs.Numbers.{number_at, unsigned_at, numbers_from};

use fields::Field;

// Number i of the bytes; 0 where they have none.
#[tactic(auto, using(crate::proofs::Signed::numbers))]
fn number_at(bytes: &[u8], i: usize) -> i64
    ensures { result ≡ number_at bytes.now i }
{
    unsigned_at(bytes, i).cast_signed()
}

// The same unsigned. Past the end it is 0 and no Option: files that programs read are cut off so, as their definitions say.
pub fn unsigned_at(bytes: &[u8], i: usize) -> u64
    ensures { result ≡ unsigned_at bytes.now i }
{
    if i < bytes.len() / 8 {
        u64::read_at(bytes, 8 * i)
    } else {
        0
    }
}

// Fills the slice with the bytes' first numbers, and zeros where they have no more.
pub fn read_numbers(bytes: &[u8], out: &mut [i64])
    ensures { out.new ≡ numbers_from bytes.now 0 (length out.old) }
{
    for i in 0..out.len() {
        out[i] = number_at(bytes, i);
    }
}
