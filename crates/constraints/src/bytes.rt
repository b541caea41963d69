// Bytes that a file's layout wants zero.
ghost use Rattle.std.specs.Prelude.{◌+◌, ◌≤◌, ◌≡◌, length};
ghost use Rattle.fields.specs.Fields.{zeros_at};

// Whether so many bytes are zero.
pub fn zeros_at(s: &[u8], at: usize, count: usize) -> bool
    requires { at + count ≤ length s.now }
    ensures { result ≡ zeros_at s.now at count }
{
    s[at..at + count].iter().all(|b| *b == 0)
}
