//! What is shown of an alarm.

/// What is shown of an alarm: its first flag, in the order of the first three, else its core state.
#[derive(Clone, Copy, Debug, PartialEq, Eq)]
pub enum Shown {
    OutOfService,
    ByDesign,
    Shelved,
    Normal,
    Unack,
    Acked,
    RtnUnack,
    LatchUnack,
    LatchAcked,
}
