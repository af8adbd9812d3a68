//! Moments.

ghost use Rattle.std.specs.Prelude.{◌≡◌, ℕ, ◌<◌, ◌^◌, SomeIff};

use std::marker::Model;

/// A moment of the plant's clock, in seconds, below 2^40.
#[derive(Clone, Copy, Debug, PartialEq, Eq, PartialOrd, Ord)]
pub struct Moment {
    seconds: u64,
}

impl Model for Moment {
    ghost Value = { ℕ };

    ghost view = { λ m. m.seconds };

    ghost invariant = { λ m. m.seconds < 2 ^ 40 };

    ghost inverse = { λ n. record { seconds = n } };
}

impl Moment {
    /// The moment of a new plant.
    pub fn start() -> Self
        ensures { result ≡ 0 }
    {
        Moment { seconds: 0 }
    }

    /// The moment `seconds` seconds from the start; `None` from 2^40 on.
    pub fn new(seconds: u64) -> Option<Self>
        ensures { SomeIff result (seconds < 2 ^ 40) seconds }
    {
        if seconds < 1 << 40 {
            Some(Moment { seconds })
        } else {
            None
        }
    }

    /// The seconds from the start.
    pub fn seconds(self) -> u64
        ensures seconds { result ≡ self }
        ensures limit { result < 2 ^ 40 }
    {
        self.seconds
    }
}
