//! What slots want.

use crate::action::Action;
use crate::alarm_id::AlarmId;

/// What a slot wants to be done.
#[derive(Clone, Copy, Debug, PartialEq, Eq)]
pub enum Want {
    /// An action, whatever the alarm's stamp is.
    Do(Action),
    /// The acknowledgement of the annunciation with this stamp: it is refused if the alarm was annunciated again.
    AckSeen(AlarmId, u64),
}

impl Want {
    ghost use Rattle.std.specs.Prelude.{◌≡◌};
    ghost use Rattle.alm_types.specs.Wants.{action_of};

    /// The action that is done if it is accepted.
    pub fn action(self) -> Action
        ensures { result ≡ action_of self }
    {
        match self {
            Want::Do(action) => action,
            Want::AckSeen(alarm, _) => Action::Ack(alarm),
        }
    }
}
