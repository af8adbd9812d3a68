//! What the present state adds to a history of moments.

use crate::current_state::CurrentState;
use crate::recorded_moment::RecordedMoment;
use alm_history::Adds;
use alm_store::Store;

/// The present state adds its moment.
pub struct AppendMoment;

impl<K: Store> Adds<CurrentState<'_, K>, RecordedMoment> for AppendMoment {
    ghost use Rattle.alm_model.specs.Judging.{accepted_of, entries_in};
    ghost use Rattle.alm_rings.specs.Batches.{fetched_of};
    ghost use Rattle.alm_moments.specs.Moments.{moment_of};

    ghost entry = { λ now. moment_of (K.Device.state (K.disk now.store.now))
        (accepted_of (entries_in (fetched_of now.fetch.now))) now.floor };
}
