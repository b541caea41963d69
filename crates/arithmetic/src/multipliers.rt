// "their multipliers (1 to 1,000,000)"
ghost use Rattle.std.specs.Prelude.{◌≡◌};
ghost use Rattle.rules.specs.Arithmetic.{is_multiplier};

pub fn is_multiplier(multiplier: u32) -> bool
    ensures { result ≡ is_multiplier multiplier }
{
    (1 <= multiplier) & (multiplier <= 1000000)
}
