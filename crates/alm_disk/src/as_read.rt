//! A chooser.

use crate::chooser::Chooser;

/// Names what reads: a crash that loses nothing.
#[derive(Clone, Copy, Debug, PartialEq, Eq)]
pub struct AsRead;

impl Chooser for AsRead {
    ghost use Rattle.std.specs.Prelude.{◌≡◌};

    ghost names = { λ _ place read byte. byte ≡ read };

    fn choose(&mut self, at: u64, read: u8) -> u8 {
        read
    }
}
