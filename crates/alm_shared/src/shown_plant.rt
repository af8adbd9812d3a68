//! A plant with the actions that it comes from.
ghost use Rattle.std.specs.Prelude.{◌≡◌};
ghost use Rattle.alm_events.specs.Events.{events_from, last, most_kept};
ghost use Rattle.alm_model.specs.Judging.{logged_actions};
ghost use Rattle.alm_model.specs.Step.{run};

use crate::append_step::AppendStep;
use crate::durable::Durable;
use alm_events::{RecentEvents, apply_logged};
use alm_model::Alarms;
use alm_moments::RunId;
use alm_types::LoggedAction;
use left_right::Absorb;
use std::alloc::AllocError;

/// A plant with the actions that it comes from, and with the last of them: what readers are shown.
#[derive(Drop)]
pub struct ShownPlant<J: RunId, P: Alarms + Drop> {
    pub plant: P,
    /// The last of these actions, as they are reported.
    pub recent: RecentEvents,
    pub told: Durable<J>,
    pub ghost is_fold: { P.plant plant ≡ run J.base (logged_actions told.prefix) },
    pub ghost remembers: { recent ≡ last most_kept (events_from J.base told.prefix) },
}

impl<J: RunId, P: Alarms + Drop> ShownPlant<J, P> {
    ghost use Rattle.std.specs.Prelude.{◌≡◌, ◌++◌};
    ghost use Rattle.alm_model.specs.Judging.{logged_actions};
    ghost use Rattle.alm_model.specs.Rules.{AllAdmitted};
    ghost use Rattle.alm_model.specs.Step.{run};

    // The next actions.
    fn take(&mut self, actions: &[LoggedAction], told: Durable<J>)
        requires next { told.prefix ≡ self.old.told.prefix ++ actions.now }
        requires admitted { AllAdmitted (run J.base (logged_actions self.old.told.prefix))
            (logged_actions actions.now) }
        ensures { self.new.told.prefix ≡ told.prefix }
    {
        apply_logged(&mut self.plant, &mut self.recent, actions);
        self.told = told;
    }
}

impl<J: RunId, P: Alarms + Drop> Absorb<AppendStep<J>> for ShownPlant<J, P> {
    ghost use Rattle.alm_shared.specs.Growing.{next_if_longer};

    type State = [LoggedAction; 0];

    ghost state = { λ s. s.told.prefix };

    ghost applied = { λ xs step. next_if_longer xs step.actions.items step.told.prefix };

    ghost never_fails = { Unit {0} };

    fn absorb_first(
        &mut self,
        operation: &AppendStep<J>,
        _other: &ShownPlant<J, P>,
    ) -> Result<(), AllocError> {
        let AppendStep { actions, told } = operation;
        if self.told.prefix.is_followed_by(&told.prefix, actions) {
            self.take(actions, told.again());
        }
        Ok(())
    }
}
