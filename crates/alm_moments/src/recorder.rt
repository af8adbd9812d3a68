//! The one writer of a run's history of moments.
ghost use Rattle.std.specs.Prelude.{◌≡◌, ◌++◌, ◌∷◌, [], IfSome};
ghost use Rattle.alm_model.specs.Judging.{accepted_of, entries_in};
ghost use Rattle.alm_rings.specs.Batches.{fetched_of};
ghost use Rattle.alm_moments.specs.Moments.{AreMoments, IsNextMoment, IsSafeMoment, moment_of, now_of};
ghost use Rattle.alm_moments.specs.Naming.{IsNamedAfter};

use crate::append_moment::AppendMoment;
use crate::current_state::CurrentState;
use crate::moments::Moments;
use crate::of_moments::OfMoments;
use crate::recorded_moment::RecordedMoment;
use crate::run_id::RunId;
use alm_history::{HistoryWriter, NewHistory};
use alm_store::{Phase, Store};
use std::marker::Model;

/// The one writer of a run's history of moments. Contracts see it as all the moments so far.
#[derive(Drop)]
pub struct Recorder<J: RunId> {
    writer: HistoryWriter<RecordedMoment, OfMoments<J>>,
}

impl<J: RunId> Model for Recorder<J> {
    ghost use Rattle.std.specs.Prelude.{List};
    ghost use Rattle.alm_moments.specs.declared.recorded_moment.RecordedMoment.{RecordedMoment};
    ghost use Rattle.alm_moments.specs.Moments.{AreMoments};

    ghost Value = { List RecordedMoment };

    ghost view = { λ r. r.writer };

    ghost invariant = { λ r. AreMoments J.honest J.recovers J.base J.first r.writer };
}

impl<J: RunId> Recorder<J> {
    /// Begins a run's history, under the run's name: it is named after this store, which has no work begun. `None` if somebody else
    /// has begun it, which never comes.
    pub fn new<K: Store>(new: NewHistory<RecordedMoment>, store: &K) -> Option<Recorder<J>>
        requires book { new.seen.book ≡ J.moments }
        requires idle { (K.state store.now).phase ≡ Phase.Idle }
        requires named { IsNamedAfter J.RunId K.Store K.Device.Disk store.now }
        ensures { IfSome result (λ recorder. recorder ≡ []) }
    {
        // for the proof: the contract of `images` says what a crash leaves at the first moment
        store.images();
        let writer = new.named::<OfMoments<J>>()?;
        Some(Recorder { writer })
    }

    /// The moments so far.
    pub fn moments(&self) -> Moments<J>
        ensures { result ≡ self.now }
    {
        Moments::new(self.writer.seen())
    }

    /// Adds the moment that is now, which follows the last one. Nobody else adds any, so it is never refused.
    pub fn record<K: Store>(&mut self, now: &CurrentState<'_, K>)
        requires follows { J.honest → ∥ IsNextMoment (now_of J.base J.first self.old)
            (moment_of (K.Device.state (K.disk now.now.store.now))
            (accepted_of (entries_in (fetched_of now.now.fetch.now))) now.now.floor) ∥₁ }
        requires safe { J.honest → ∥ IsSafeMoment J.recovers J.base
            (moment_of (K.Device.state (K.disk now.now.store.now))
            (accepted_of (entries_in (fetched_of now.now.fetch.now))) now.now.floor) ∥₁ }
        ensures { self.new ≡ self.old ++ moment_of (K.Device.state (K.disk now.now.store.now))
            (accepted_of (entries_in (fetched_of now.now.fetch.now))) now.now.floor ∷ [] }
    {
        self.writer.add::<CurrentState<'_, K>, AppendMoment>(now);
    }
}
