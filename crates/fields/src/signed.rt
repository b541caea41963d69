// Signed fields: the unsigned word read as two's complement.
ghost use Rattle.std.specs.Prelude.{◌≡◌};
ghost use Rattle.fields.specs.Fields.{i32_of, i64_of};

#[tactic(auto, using(crate::proofs::TwosComplement::i32_word))]
pub fn i32_of(word: u32) -> i32
    ensures { result ≡ i32_of word }
{
    u32::cast_signed(word)
}

#[tactic(auto, using(crate::proofs::TwosComplement::i64_word))]
pub fn i64_of(word: u64) -> i64
    ensures { result ≡ i64_of word }
{
    u64::cast_signed(word)
}
