//! What happened to a plant.

use crate::action::Action;
use crate::moment::Moment;
use crate::slot::Slot;

/// An accepted action as it is reported later. Its number is its place among all actions of the plant.
#[derive(Clone, Copy, Debug, PartialEq, Eq)]
pub struct Event {
    /// The plant's moment after it.
    pub moment: Moment,
    /// Who asked for it.
    pub slot: Slot,
    pub action: Action,
}
