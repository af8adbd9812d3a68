//! A published plant for which no batch was ever published.

use alm_board::{FreeLook, Look, Recall};
use alm_events::Recalled;
use alm_model::{Alarms, look};
use alm_rings::Told;
use alm_types::{Answer, Event, Query, Refusal};

/// An empty report.
#[derive(Drop)]
pub struct StillTold {
    pub base_count: u64,
}

impl Told for StillTold {
    ghost use Rattle.std.specs.Prelude.{[]};

    ghost base_count = { λ told. told.base_count };

    ghost list = { λ _. [] };

    ghost logged = { λ _. [] };
}

/// A plant that stays.
#[derive(Drop)]
pub struct StillLook<P: Alarms + Drop> {
    pub plant: P,
}

impl<P: Alarms + Drop> Look for StillLook<P> {
    ghost use Rattle.std.specs.Prelude.{[]};

    type Told = StillTold;

    ghost base = { λ look. P.plant look.plant };

    ghost knows = { λ _. [] };

    fn look(&mut self, query: Query, answer: &mut Answer) -> Result<u64, Refusal> {
        // for the proof: what is refused is taken apart from what is shown
        match look(&self.plant, query, answer) {
            Ok(count) => Ok(count),
            Err(refusal) => Err(refusal),
        }
    }

    fn take_in(&mut self, told: StillTold) {
        drop(told);
    }
}

impl<P: Alarms + Drop> FreeLook for StillLook<P> {
    ghost free = { λ _ _. tt };
}

/// Nothing has happened: what was before isn't remembered.
impl<P: Alarms + Drop> Recall for StillLook<P> {
    ghost use Rattle.std.specs.Prelude.{[]};

    ghost logged = { λ _. [] };

    fn recall(&mut self, after: Option<u64>, events: &mut Vec<Event>) -> Result<Recalled, Refusal> {
        let count = self.plant.count();
        let after = after.unwrap_or(count);
        if after < count {
            return Err(Refusal::Forgotten);
        }
        events.clear();
        Ok(Recalled {
            count,
            first: after.saturating_add(1),
        })
    }
}
