//! Receipts that report nothing new.

use alm_rings::{Receipt, Told};
use alm_types::{Action, Refusal, Slot, Verdict, Want};

/// How many actions the plant had when the server was opened.
const COUNT: u64 = 1000;

/// Reports an empty list, of a server that was opened with a number of actions.
#[derive(Drop)]
pub struct Untold;

impl Told for Untold {
    ghost use Rattle.std.specs.Prelude.{[]};

    ghost base_count = { λ _. 1000 };

    ghost list = { λ _. [] };

    ghost logged = { λ _. [] };
}

/// The request of this serial was refused, at a count of actions.
pub fn refused(slot: Slot, serial: u64, want: Want) -> Receipt<Untold> {
    let refusal = match want.action() {
        Action::Ack(_) => Refusal::NotUnacknowledged,
        _ => Refusal::NoChange,
    };
    Receipt {
        slot,
        serial,
        verdict: Verdict::Refused(refusal, COUNT),
        number: COUNT,
        told: Untold,
    }
}
