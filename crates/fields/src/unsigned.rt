// Unsigned fields, each from two of half its width, the low one first.
ghost use Rattle.std.specs.Prelude.{◌≡◌};
ghost use Rattle.fields.specs.Fields.{u16_of, u32_of, u64_of};

#[tactic(auto, using(crate::proofs::FromBytes::u16_from_bytes))]
pub fn u16_of(low: u8, high: u8) -> u16
    ensures { result ≡ u16_of low high }
{
    u16::from_le_bytes([low, high])
}

pub fn u32_of(low: u16, high: u16) -> u32
    ensures { result ≡ u32_of low high }
{
    (low as u32) + (high as u32) * 65536
}

pub fn u64_of(low: u32, high: u32) -> u64
    ensures { result ≡ u64_of low high }
{
    (low as u64) + (high as u64) * 4294967296
}
