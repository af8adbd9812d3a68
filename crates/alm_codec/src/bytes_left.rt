//! Places counted from the end.

ghost use Rattle.std.specs.Prelude.{◌≡◌, ◌-◌, length};

use crate::damage::Damage;

/// How many bytes were left at the start of the damaged field.
#[derive(Clone, Copy, Debug, PartialEq, Eq)]
pub struct BytesLeft(pub usize);

impl BytesLeft {
    /// The place of the damaged field in the bytes.
    pub fn of(self, bytes: &[u8]) -> Damage
        ensures { result.at ≡ length bytes.now - self.0 }
    {
        Damage {
            at: bytes.len().saturating_sub(self.0),
        }
    }
}
