//! The history that has a run's moments.

use crate::run_id::RunId;
use alm_history::HistoryName;
use std::marker::PhantomData;

/// The history that has a run's moments.
pub struct OfMoments<J: RunId>(PhantomData<J>);

impl<J: RunId> HistoryName for OfMoments<J> {
    ghost book = { J.moments };
}
