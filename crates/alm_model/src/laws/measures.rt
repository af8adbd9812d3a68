//! Laws of the measures.

ghost use Rattle.std.specs.Prelude.{◌≡◌, None, List};
ghost use Rattle.alm_types.specs.Tables.{Listing, IsTable};
ghost use Rattle.alm_types.specs.declared.action.Action.{Action};
ghost use Rattle.alm_model.specs.Plant.{RecordedPlant};
ghost use Rattle.alm_model.specs.Accept.{refusal};
ghost use Rattle.alm_model.specs.Condense.{condense, IsRecorded};
ghost use Rattle.alm_model.specs.Counted.{IsCounted, new_whole, run_whole};
ghost use Rattle.alm_model.specs.Step.{after, step, run};
ghost use Rattle.alm_model.specs.New.{new_plant};
ghost use Rattle.alm_model.specs.Rules.{KeepsRules, AreAdmitted};

/// An admitted action does the same to the condensed plant as to the whole one.
pub fn step_is_after_condensed()
    ensures same { (p : RecordedPlant) (action : Action) → IsRecorded p.panel.now p.kept →
        refusal p.panel action ≡ None → condense (after p action) ≡ step (condense p) action }
    ensures recorded { (p : RecordedPlant) (action : Action) → IsRecorded p.panel.now p.kept →
        refusal p.panel action ≡ None →
        IsRecorded (after p action).panel.now (after p action).kept }
{}

/// Of any whole plant the windows, floods and lists of measures are the same when they are taken from the condensed one.
pub fn measures_are_those_condensed()
    ensures { (p : RecordedPlant) → IsRecorded p.panel.now p.kept → KeepsRules (condense p) →
        IsCounted p (condense p) }
{}

/// From a new plant on, after any admitted actions, the condensed plant is that of the whole one. Its windows, floods and lists
/// of measures are those counted from all annunciations.
pub fn measures_are_counted()
    ensures { (t : Listing) (actions : List Action) → IsTable t →
        AreAdmitted (new_plant t) actions →
        IsCounted (run_whole (new_whole t) actions) (run (new_plant t) actions) }
{}
