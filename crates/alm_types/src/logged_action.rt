//! Accepted actions with their requests.

use crate::action::Action;
use crate::slot::Slot;

/// An accepted action, with the request that it answers.
#[derive(Clone, Copy, Debug, PartialEq, Eq)]
pub struct LoggedAction {
    /// Who asked for it.
    pub slot: Slot,
    /// Which of the slot's requests it was, from 1.
    pub serial: u64,
    pub action: Action,
}
