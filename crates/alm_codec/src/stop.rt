//! Why the reading of an image stopped.

ghost use Rattle.std.specs.Prelude.{◌≡◌};
ghost use Rattle.alm_codec.specs.declared.stop.Stop.TheVariants.{Memory, Field};

use crate::bytes_left::BytesLeft;
use std::alloc::{AllocError, AllocFailed};

/// Why the reading of an image stopped.
#[derive(Debug, Drop)]
pub enum Stop {
    Memory,
    Field(BytesLeft),
}

impl From<AllocError> for Stop {
    ghost from_gives = { λ _ e. e ≡ Memory };

    fn from(_e: AllocError) -> Stop {
        Stop::Memory
    }
}

impl<T: Drop> From<AllocFailed<T>> for Stop {
    ghost from_gives = { λ _ e. e ≡ Memory };

    fn from(_e: AllocFailed<T>) -> Stop {
        Stop::Memory
    }
}

impl From<BytesLeft> for Stop {
    ghost from_gives = { λ left e. e ≡ Field left };

    fn from(left: BytesLeft) -> Stop {
        Stop::Field(left)
    }
}
