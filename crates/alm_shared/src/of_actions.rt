//! The history that has a run's accepted actions.

use alm_history::HistoryName;
use alm_moments::RunId;
use std::marker::PhantomData;

/// The history that has a run's accepted actions.
pub struct OfActions<J: RunId>(PhantomData<J>);

impl<J: RunId> HistoryName for OfActions<J> {
    ghost book = { J.book };
}
