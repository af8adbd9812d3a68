//! A hold that never holds.

use crate::hold::Hold;
use alm_types::Slot;

/// Lets every sync begin.
#[derive(Clone, Copy, Debug, PartialEq, Eq)]
pub struct Free;

impl Hold for Free {
    ghost use Rattle.std.specs.Prelude.{◌≡◌, true};

    ghost answers = { λ _ begins. begins ≡ true };

    fn before_sync(&self) -> bool {
        true
    }

    fn taken(&self, slot: Slot) {}

    fn looked(&self, slot: Slot) {}
}
