//! Requests.

use crate::slot::Slot;
use crate::want::Want;

/// What a slot asks for.
#[derive(Clone, Copy, Debug, PartialEq, Eq)]
pub struct Request {
    pub slot: Slot,
    pub want: Want,
}
