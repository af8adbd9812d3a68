//! Bytes that print.

ghost use Rattle.std.specs.Prelude.{◌≡◌, IsAscii};

/// Bytes below 128 as a string.
pub fn ascii(bytes: &[u8]) -> &str
    requires { IsAscii bytes.now }
    ensures { result.now ≡ bytes.now }
{
    match str::from_utf8(bytes) {
        Ok(text) => text,
        Err(_) => unreachable!(),
    }
}
