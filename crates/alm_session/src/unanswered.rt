//! Actions that are unanswered.

ghost use Rattle.alm_session.specs.Unanswered.{IsReceiptOf};
ghost use Rattle.alm_session.specs.Sides.{heard_of};

use alm_rings::{Receipt, Told};
use alm_types::{Action, AlarmId, Verdict, Want};

/// An action that a line asked for, and that is unanswered.
#[derive(Clone, Copy, Debug, PartialEq, Eq)]
pub struct Unanswered {
    /// The line's.
    pub id: u32,
    /// The number of the slot.
    pub slot: u8,
    /// Which of the slot's requests it is, from 1.
    pub serial: u64,
    pub want: Want,
}

/// What an empty place holds.
impl Default for Unanswered {
    fn default() -> Unanswered {
        Unanswered {
            id: 0,
            slot: 0,
            serial: 0,
            want: Want::Do(Action::Ack(AlarmId(0))),
        }
    }
}

impl Unanswered {
    ghost use Rattle.std.specs.Prelude.{IsTrue, ◌↔◌};

    /// Whether a receipt is of this request; an action that it says to be accepted is then the one that is wanted.
    pub fn is_answered_by<T: Told>(&self, receipt: &Receipt<T>) -> bool
        ensures { IsTrue result ↔ IsReceiptOf self.now (heard_of receipt.now) }
    {
        if receipt.slot.number() != self.slot || receipt.serial != self.serial {
            return false;
        }
        match receipt.verdict {
            Verdict::Accepted(action) => action == self.want.action(),
            Verdict::Refused(_, _) => true,
        }
    }
}
