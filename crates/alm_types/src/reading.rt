//! Values of the process.

ghost use Rattle.std.specs.Prelude.{◌≡◌, SomeIff, ℤ};
ghost use Rattle.alm_types.specs.Readings.{IsReading};

use std::marker::Model;

/// A value of the process, or a setpoint: -10^12 to 10^12 of the alarm's own unit.
#[derive(Clone, Copy, Debug, PartialEq, Eq, PartialOrd, Ord)]
pub struct Reading {
    value: i64,
}

impl Model for Reading {
    ghost Value = { ℤ };

    ghost view = { λ r. r.value };

    ghost invariant = { λ r. IsReading r.value };

    ghost inverse = { λ n. record { value = n } };
}

impl Reading {
    /// The reading of a value; `None` outside the range.
    pub fn new(value: i64) -> Option<Self>
        ensures { SomeIff result (IsReading value) value }
    {
        if value >= -1_000_000_000_000 && value <= 1_000_000_000_000 {
            Some(Reading { value })
        } else {
            None
        }
    }

    /// The value.
    pub fn value(self) -> i64
        ensures value { result ≡ self }
        ensures range { IsReading result }
    {
        self.value
    }
}
