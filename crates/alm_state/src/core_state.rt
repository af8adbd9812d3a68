//! The table of the core states.

ghost use Rattle.std.specs.Prelude.{◌≡◌, IfOk, IfErr, Some, None};
ghost use Rattle.alm_state.specs.Table.{next_core, refusal_of};

use crate::happening::Happening;
use alm_types::Refusal;

/// The core states of an alarm.
#[derive(Clone, Copy, Debug, PartialEq, Eq)]
pub enum Core {
    /// Not annunciated.
    Normal,
    /// Active, unacknowledged.
    Unack,
    /// Active, acknowledged.
    Acked,
    /// Returned to normal, unacknowledged.
    RtnUnack,
    /// Latched: returned, unacknowledged.
    LatchUnack,
    /// Latched: returned, acknowledged, not reset.
    LatchAcked,
}

impl Core {
    /// The next core state. If the table has none: `NoChange` for a condition, `NotUnacknowledged` for an
    /// acknowledgement, `NotResettable` for a reset.
    pub fn next(self, happening: Happening, latching: bool) -> Result<Core, Refusal>
        ensures next { IfOk result (λ core. next_core latching happening self ≡ Some core) }
        ensures refused { IfErr result
            (λ e. (next_core latching happening self ≡ None) × (e ≡ refusal_of happening)) }
    {
        match (happening, self) {
            (
                Happening::Comes,
                Core::Normal | Core::RtnUnack | Core::LatchUnack | Core::LatchAcked,
            ) => Ok(Core::Unack),
            (Happening::Comes, _) => Err(Refusal::NoChange),
            (Happening::Goes, Core::Unack) => Ok(if latching {
                Core::LatchUnack
            } else {
                Core::RtnUnack
            }),
            (Happening::Goes, Core::Acked) => Ok(if latching {
                Core::LatchAcked
            } else {
                Core::Normal
            }),
            (Happening::Goes, _) => Err(Refusal::NoChange),
            (Happening::Ack, Core::Unack) => Ok(Core::Acked),
            (Happening::Ack, Core::RtnUnack) if !latching => Ok(Core::Normal),
            (Happening::Ack, Core::LatchUnack) if latching => Ok(Core::LatchAcked),
            (Happening::Ack, _) => Err(Refusal::NotUnacknowledged),
            (Happening::Reset, Core::LatchAcked) if latching => Ok(Core::Normal),
            (Happening::Reset, _) => Err(Refusal::NotResettable),
        }
    }
}

impl Core {
    ghost use Rattle.alm_state.specs.Rows.{is_annunciated};

    /// Whether the alarm is annunciated: it asks for the operator.
    pub fn is_annunciated(self) -> bool
        ensures { result ≡ is_annunciated self }
    {
        !matches!(self, Core::Normal)
    }
}
