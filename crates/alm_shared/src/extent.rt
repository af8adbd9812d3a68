//! What exists to be asked for in a run.
ghost use Rattle.std.specs.Prelude.{◌≡◌, IsOk, List, Err, MatchResult, length};
ghost use Rattle.alm_types.specs.declared.action.Action.{Action};
ghost use Rattle.alm_model.specs.Look.{look};
ghost use Rattle.alm_model.specs.Step.{run};
ghost use Rattle.alm_shared.specs.Extents.{is_there, missing};

use alm_model::{Alarms, WHEEL_SLOTS};
use alm_moments::RunId;
use alm_types::{Query, Refusal};
use std::marker::PhantomData;

/// How many alarms and areas the plant of a run has, which no action changes. So it is known what may be asked for after the
/// plant is no longer readable.
#[derive(Drop)]
pub struct Extent<J: RunId> {
    alarms: usize,
    areas: usize,
    of: PhantomData<J>,
    ghost alarms_of_the_run: { alarms ≡ length J.base.panel.rows },
    ghost areas_of_the_run: { areas ≡ length J.base.floods },
    ghost named: { length J.base.panel.attrs ≡ length J.base.panel.rows },
    ghost measured: { length J.base.kept.ages ≡ length J.base.floods },
}

impl<J: RunId> Extent<J> {
    // That of the plant that the run begins with.
    pub(crate) fn new<P: Alarms>(plant: &P) -> Extent<J>
        requires { P.plant plant.now ≡ J.base }
    {
        Extent {
            alarms: plant.alarms(),
            areas: plant.areas(),
            of: PhantomData,
        }
    }

    // The same.
    pub(crate) fn again(&self) -> Extent<J> {
        Extent {
            alarms: self.alarms,
            areas: self.areas,
            of: PhantomData,
        }
    }

    // Whether the plant has what a query asks for.
    fn has(&self, query: Query) -> bool
        ensures { result ≡ is_there J.base query }
    {
        match query {
            Query::State(alarm) | Query::Attributes(alarm) | Query::Row(alarm) => {
                (alarm.0 as usize) < self.alarms
            }
            Query::Flood(area) | Query::Area(area) => (area as usize) < self.areas,
            Query::Priority(priority) => 1 <= priority && priority <= 4,
            Query::Wheel(slot) => slot < WHEEL_SLOTS,
            Query::Stale | Query::Chatter | Query::Plant => true,
        }
    }

    // Finds what a query asks for, or the refusal that the plant returns whatever was published.
    pub(crate) fn find(&self, query: Query) -> Result<(), Refusal>
        ensures { MatchResult result (λ _. IsOk (look J.base query))
            (λ refusal. (refusal ≡ missing query) ×
            ((list : List Action) → look (run J.base list) query ≡ Err refusal)) }
    {
        if self.has(query) {
            Ok(())
        } else {
            Err(refuse(query))
        }
    }
}

// The refusal of a query that asks for what isn't there.
fn refuse(query: Query) -> Refusal
    ensures { result ≡ missing query }
{
    match query {
        Query::State(_) | Query::Attributes(_) | Query::Row(_) => Refusal::NoSuchAlarm,
        _ => Refusal::NoSuchList,
    }
}
