//! The front of bytes, and what is behind it.

ghost use Rattle.std.specs.Prelude.{◌≡◌, ◌≤◌, drop, length, take};

/// The first `n` bytes.
pub fn front(bytes: &[u8], n: usize) -> &[u8]
    requires { n ≤ length bytes.now }
    ensures { result.now ≡ take n bytes.now }
{
    &bytes[..n]
}

/// The bytes behind the first `n`.
pub fn behind(bytes: &[u8], n: usize) -> &[u8]
    requires { n ≤ length bytes.now }
    ensures { result.now ≡ drop n bytes.now }
{
    &bytes[n..]
}
