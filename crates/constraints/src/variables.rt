// The variables of linear forms.
ghost use Rattle.std.specs.Prelude.{◌≡◌};
ghost use Rattle.constraints.specs.Linear.{variable};

// A stream at an offset, as one number; the atom of a bool stream.
pub fn var(offset: u8, stream: u16) -> u32
    ensures { result ≡ variable offset stream }
{
    64 * (offset as u32) + (stream as u32)
}
