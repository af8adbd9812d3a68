//! Runs of actions.

ghost use Rattle.std.specs.Prelude.{◌≡◌};
ghost use Rattle.alm_types.specs.Tables.{Listing, IsTable};
ghost use Rattle.alm_model.specs.Counted.{IsCounted, new_whole, run_whole};
ghost use Rattle.alm_model.specs.New.{new_plant};
ghost use Rattle.alm_model.specs.Step.{run};
ghost use Rattle.alm_model.specs.Rules.{AllAdmitted};

use crate::alarms::Alarms;
use alm_types::Action;

/// Does actions, one after the other. From a new plant on, its windows, floods and lists of measures are then those counted
/// from all annunciations.
pub fn apply_all<P: Alarms>(plant: &mut P, actions: &[Action])
    requires { AllAdmitted (P.plant plant.old) actions.now }
    ensures fold { P.plant plant.new ≡ run (P.plant plant.old) actions.now }
    ensures counted { (t : Listing) → IsTable t → P.plant plant.old ≡ new_plant t →
        IsCounted (run_whole (new_whole t) actions.now) (P.plant plant.new) }
{
    for action in actions {
        plant.apply(action);
    }
}
