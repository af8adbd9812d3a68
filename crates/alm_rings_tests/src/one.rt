//! What the tests send and release.

use alm_rings::{Receipt, Told};
use alm_types::{Action, AlarmId, Slot, Verdict, Want};

/// Reports a list of one action, of a server that was opened with none.
#[derive(Drop)]
pub struct One {
    pub slot: Slot,
    pub serial: u64,
    pub action: Action,
}

impl Told for One {
    ghost use Rattle.std.specs.Prelude.{[], ◌∷◌};

    ghost base_count = { λ _. 0 };

    ghost list = { λ told. told.action ∷ [] };

    ghost logged = { λ told.
        record { slot = told.slot; serial = told.serial; action = told.action } ∷ [] };
}

/// An acknowledgement of the alarm of this number.
fn acknowledgement(number: u64) -> Action {
    Action::Ack(AlarmId((number % 1000) as u32))
}

/// Acknowledges the alarm of this number.
pub fn ack(number: u64) -> Want {
    Want::Do(acknowledgement(number))
}

/// Says that the action of this slot's request was the first to be accepted.
pub fn accepted(slot: Slot, serial: u64) -> Receipt<One> {
    let told = One {
        slot,
        serial,
        action: acknowledgement(serial),
    };
    Receipt {
        slot: told.slot,
        serial,
        verdict: Verdict::Accepted(told.action),
        number: 1,
        told,
    }
}
