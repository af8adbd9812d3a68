//! Who asked for an action.

ghost use Rattle.std.specs.Prelude.{◌≡◌, ◌≤◌, true, Some, None, if◌then◌else◌};
ghost use Rattle.alm_codec.specs.Versions.{asker_in, is_asker};

use crate::version::Version;
use alm_types::{SLOTS, Slot};
use std::marker::Model;

/// The slot that asked for an action, or nothing where that isn't said. As a byte it is the slot's number and one, or 0.
#[derive(Clone, Copy, Debug, PartialEq, Eq)]
pub struct Asker {
    number: u8,
}

impl Model for Asker {
    ghost use Rattle.std.specs.Prelude.{ℕ, ◌≤◌};
    ghost use Rattle.alm_types.specs.Sizes.{slot_count};

    ghost Value = { ℕ };

    ghost view = { λ s. s.number };

    ghost invariant = { λ s. s.number ≤ slot_count };

    ghost inverse = { λ n. record { number = n } };
}

impl Asker {
    ghost use Rattle.alm_types.specs.Sizes.{slot_count};

    /// Nobody is named.
    pub fn nobody() -> Self
        ensures { result ≡ 0 }
    {
        Asker { number: 0 }
    }

    /// A slot that asked, as far as a version says it: in versions 01 and 02 nothing.
    pub fn of(slot: Slot, version: Version) -> Self
        ensures slot { result ≡ asker_in version slot }
        ensures said { is_asker version result ≡ true }
    {
        match version {
            Version::V01 | Version::V02 => Asker::nobody(),
            Version::V03 => Asker {
                number: slot.number() + 1,
            },
        }
    }

    /// What a byte says in a version; `None` where it can't stand there.
    pub fn of_byte(byte: u8, version: Version) -> Option<Self>
        ensures { result ≡ (if is_asker version byte then Some byte else None) }
    {
        let most = match version {
            Version::V01 | Version::V02 => 0,
            Version::V03 => SLOTS as u8,
        };
        if byte <= most {
            Some(Asker { number: byte })
        } else {
            None
        }
    }

    /// Its byte.
    pub fn byte(self) -> u8
        ensures byte { result ≡ self }
        ensures limit { result ≤ slot_count }
    {
        self.number
    }
}
