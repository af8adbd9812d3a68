//! A prefix of a run's history of moments.
ghost use Rattle.std.specs.Prelude.{◌≡◌, []};
ghost use Rattle.alm_moments.specs.Moments.{AreMoments};

use crate::of_moments::OfMoments;
use crate::recorded_moment::RecordedMoment;
use crate::run_id::RunId;
use alm_board::Voucher;
use alm_history::HistoryPrefix;
use std::marker::Model;

/// A prefix of a run's history of moments that was seen: no bytes, however long. Contracts see it as its moments.
#[derive(Drop)]
pub struct Moments<J: RunId> {
    seen: HistoryPrefix<RecordedMoment, OfMoments<J>>,
}

impl<J: RunId> Model for Moments<J> {
    ghost use Rattle.std.specs.Prelude.{List};
    ghost use Rattle.alm_moments.specs.declared.recorded_moment.RecordedMoment.{RecordedMoment};
    ghost use Rattle.alm_moments.specs.Moments.{AreMoments};

    ghost Value = { List RecordedMoment };

    ghost view = { λ m. m.seen };

    ghost invariant = { λ m. AreMoments J.honest J.recovers J.base J.first m.seen };
}

/// They vouch for what is held at the last of them.
impl<J: RunId> Voucher for Moments<J> {
    ghost use Rattle.alm_moments.specs.Moments.{AreHeld};

    ghost vouches = { λ moments list. AreHeld J.base J.first moments list };
}

impl<J: RunId> Moments<J> {
    // Those that were seen.
    pub(crate) fn new(seen: HistoryPrefix<RecordedMoment, OfMoments<J>>) -> Moments<J>
        requires { AreMoments J.honest J.recovers J.base J.first seen }
        ensures { result ≡ seen }
    {
        Moments { seen }
    }

    /// What is known of them.
    pub fn stands(&self)
        ensures { AreMoments J.honest J.recovers J.base J.first self.now }
    {
        let _seen = &self.seen;
    }

    /// The same prefix.
    pub fn again(&self) -> Moments<J>
        ensures { result ≡ self.now }
    {
        Moments {
            seen: self.seen.again(),
        }
    }
}
