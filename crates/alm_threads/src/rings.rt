//! What a sequencer uses.

use alm_rings::{Inbox, SealEnds};

/// What a sequencer uses.
#[derive(Drop)]
pub struct Rings {
    pub inboxes: Vec<Inbox>,
    pub ends: SealEnds,
}
