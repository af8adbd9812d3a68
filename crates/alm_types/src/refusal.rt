//! Refusals.

ghost use Rattle.std.specs.Prelude.{◌≡◌};

/// Why a request, a query or a line is refused.
#[derive(Clone, Copy, Debug, PartialEq, Eq)]
pub enum Refusal {
    /// The alarm isn't in the table.
    NoSuchAlarm,
    /// There is nothing to acknowledge.
    NotUnacknowledged,
    /// It isn't latched and acknowledged.
    NotResettable,
    AlreadyShelved,
    NotShelved,
    /// No seconds, or more than the alarm's max_shelve.
    ShelveLength,
    /// The flag is set already.
    AlreadySet,
    /// The flag isn't set.
    NotSet,
    /// The value changes no condition.
    NoChange,
    /// The moment isn't after the plant's.
    ClockBack,
    /// The slot may not ask for this.
    WrongRole,
    /// The slot has 64 unanswered requests. No reply line has this.
    Busy,
    /// The line is not one of the protocol's.
    BadLine,
    /// The line has more than 128 bytes.
    LineTooLong,
    /// The storage has stopped.
    Stopped,
    /// There is no memory for the list.
    OutOfMemory,
    /// There is no such priority, area or wheel slot.
    NoSuchList,
    /// The plant has had 2^48 actions.
    Exhausted,
    /// The priority isn't 1 to 4.
    PriorityRange,
    /// The priority or the setpoint is the present one.
    SameValue,
    /// An action after the number that was asked is no longer remembered.
    Forgotten,
    /// The alarm was annunciated again since the annunciation that was to be acknowledged.
    AnnunciatedAgain,
}

impl Refusal {
    ghost use Rattle.alm_types.specs.Refusals.{number_of};

    /// Its number in reply lines, 1 to 22.
    pub fn number(self) -> u8
        ensures { result ≡ number_of self }
    {
        self as u8 + 1
    }
}
