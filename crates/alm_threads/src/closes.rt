//! A board that isn't dropped, but closed.

use alm_board::Board;
use alm_model::Alarms;
use alm_moments::RunId;
use alm_shared::{ActionHistory, ActionPrefix, AppendStep, Publisher, ShownPlant};
use std::sync::Wait;

/// A board that is closed by `C`: readers may still use it, and closing waits for them.
pub trait Closes<C>: Board {
    /// Looks are answered Stopped from now on.
    fn close(self, by: &C);
}

impl<J: RunId, P: Alarms + Drop, R: Wait> Closes<R>
    for Publisher<ShownPlant<J, P>, AppendStep<J>, ActionPrefix<J>, ActionHistory<J>> {
    fn close(self, by: &R) {
        drop(self.take(by));
    }
}
