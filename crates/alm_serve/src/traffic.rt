//! The bytes of a slot's connections.

ghost use Rattle.std.specs.Prelude.{◌≡◌, []};

use crate::transcript::Transcript;

/// The bytes of a slot's connections, one after the other.
#[derive(Drop)]
pub struct Traffic {
    /// What reads have given.
    pub came: Transcript,
    /// What was written.
    pub written: Transcript,
}

impl Traffic {
    /// None yet.
    pub fn new() -> Self
        ensures came { result.came.bytes ≡ [] }
        ensures written { result.written.bytes ≡ [] }
    {
        Traffic {
            came: Transcript::new(),
            written: Transcript::new(),
        }
    }
}
