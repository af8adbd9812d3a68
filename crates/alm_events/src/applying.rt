//! Accepted actions that are done and remembered.

ghost use Rattle.std.specs.Prelude.{◌≡◌, ◌++◌, List};
ghost use Rattle.alm_types.specs.declared.event.Event.{Event};
ghost use Rattle.alm_model.specs.Judging.{logged_actions};
ghost use Rattle.alm_model.specs.Rules.{AllAdmitted};
ghost use Rattle.alm_model.specs.Step.{run};
ghost use Rattle.alm_events.specs.Events.{most_kept, last, events_from};

use crate::recent_events::RecentEvents;
use alm_model::Alarms;
use alm_types::{Event, LoggedAction};

/// Does logged actions, one after the other, and remembers each. It takes no memory.
pub fn apply_logged<P: Alarms>(plant: &mut P, recent: &mut RecentEvents, logged: &[LoggedAction])
    requires { AllAdmitted (P.plant plant.old) (logged_actions logged.now) }
    ensures fold { P.plant plant.new ≡ run (P.plant plant.old) (logged_actions logged.now) }
    ensures told { (events : List Event) → recent.old ≡ last most_kept events →
        recent.new ≡ last most_kept (events ++ events_from (P.plant plant.old) logged.now) }
{
    for logged_action in logged {
        let slot = logged_action.slot;
        let action = logged_action.action;
        plant.apply(&action);
        let moment = plant.now();
        recent.push(Event {
            moment,
            slot,
            action,
        });
    }
}
