//! What a batch adds to a history of actions.

use alm_history::Adds;
use alm_types::{Batch, LoggedAction};

/// Actions that are added to a history together, each with its request: contracts see their list, which takes no bytes.
pub type Growth = [LoggedAction; 0];

/// The accepted actions of a batch, without a number of the first.
#[derive(Drop)]
pub struct Rest<'a> {
    pub batch: &'a Batch,
    pub from: u64,
}

/// The rest of a batch adds its actions.
pub struct AppendActions;

impl Adds<Rest<'_>, Growth> for AppendActions {
    ghost use Rattle.std.specs.Prelude.{drop};
    ghost use Rattle.alm_model.specs.Judging.{logged_of};

    ghost entry = { λ rest. drop rest.from (logged_of rest.batch.now.entries) };
}
