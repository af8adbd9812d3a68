//! Slots.

ghost use Rattle.std.specs.Prelude.{◌≡◌, ◌<◌, SomeIff};
ghost use Rattle.alm_types.specs.Sizes.{slot_count};

use crate::role::Role;
use std::marker::Model;

/// How many slots there are.
pub const SLOTS: usize = 18;

/// One of the [`SLOTS`] connections: 0 to 15 consoles, 16 the feed, 17 the clock.
#[derive(Clone, Copy, Debug, PartialEq, Eq, PartialOrd, Ord)]
pub struct Slot {
    number: u8,
}

impl Model for Slot {
    ghost use Rattle.std.specs.Prelude.{ℕ, ◌<◌};
    ghost use Rattle.alm_types.specs.Sizes.{slot_count};

    ghost Value = { ℕ };

    ghost view = { λ s. s.number };

    ghost invariant = { λ s. s.number < slot_count };

    ghost inverse = { λ n. record { number = n } };
}

impl Slot {
    ghost use Rattle.alm_types.specs.Slots.{role_of};

    /// The slot of a number; `None` from 18 on.
    pub fn new(number: u8) -> Option<Self>
        ensures { SomeIff result (number < slot_count) number }
    {
        if (number as usize) < SLOTS {
            Some(Slot { number })
        } else {
            None
        }
    }

    /// Its number.
    pub fn number(self) -> u8
        ensures number { result ≡ self }
        ensures limit { result < slot_count }
    {
        self.number
    }

    /// What its connection may ask for.
    pub fn role(self) -> Role
        ensures { result ≡ role_of self }
    {
        match self.number {
            16 => Role::Feed,
            17 => Role::Clock,
            _ => Role::Console,
        }
    }
}
