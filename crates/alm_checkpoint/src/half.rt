//! The halves of a device.

ghost use Rattle.std.specs.Prelude.{◌≡◌};
ghost use Rattle.alm_checkpoint.specs.Layouts.{other, half_number};

/// A half of a device. Checkpoints go to the two in turn.
#[derive(Clone, Copy, Debug, PartialEq, Eq)]
pub enum Half {
    First,
    Second,
}

impl Half {
    /// The other half.
    pub fn other(self) -> Half
        ensures { result ≡ other self }
    {
        match self {
            Half::First => Half::Second,
            Half::Second => Half::First,
        }
    }

    /// Its number in a fault: 0 or 1. The header has the number 2.
    pub fn number(self) -> u8
        ensures { result ≡ half_number self }
    {
        match self {
            Half::First => 0,
            Half::Second => 1,
        }
    }
}
