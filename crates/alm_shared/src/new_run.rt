//! The histories of a run, before it has a name.

use crate::append_actions::Growth;
use alm_history::NewHistory;
use alm_moments::RecordedMoment;

/// Both histories of a run, empty, before it has a name: that of its actions and that of its moments.
#[derive(Drop)]
pub struct NewRun {
    pub history: NewHistory<Growth>,
    pub moments: NewHistory<RecordedMoment>,
}

impl NewRun {
    /// Histories of their own.
    pub fn new() -> NewRun {
        NewRun {
            history: NewHistory::new(),
            moments: NewHistory::new(),
        }
    }
}
