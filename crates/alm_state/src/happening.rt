//! Happenings.

/// What happens to an alarm that is not suppressed.
#[derive(Clone, Copy, Debug, PartialEq, Eq)]
pub enum Happening {
    /// Its condition comes.
    Comes,
    /// Its condition goes.
    Goes,
    /// It is acknowledged.
    Ack,
    /// It is reset.
    Reset,
}
