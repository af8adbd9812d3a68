//! Laws of what happened between two looks.

ghost use Rattle.std.specs.Prelude.{◌≡◌, List, Some, slice_get};
ghost use Rattle.alm_types.specs.declared.action.Action.{Action};
ghost use Rattle.alm_types.specs.declared.alarm_id.AlarmId.{AlarmId};
ghost use Rattle.alm_types.specs.declared.query.Query.TheVariants as query;
ghost use Rattle.alm_state.specs.Rows.{State};
ghost use Rattle.alm_model.specs.Plant.{Condensed};
ghost use Rattle.alm_model.specs.Look.{look};
ghost use Rattle.alm_model.specs.Rules.{KeepsRules, AreAdmitted};
ghost use Rattle.alm_model.specs.Step.{run};
ghost use Rattle.alm_laws.specs.Untouched.{AllLeaveAlone};

/// A row differs from the one before only if an action between them names the alarm, or a CLOCK among them reaches the end of the
/// shelving that was shown. So a client that reads all events need not know what each of them does.
pub fn a_row_changes_only_by_its_events()
    ensures { (q : Condensed) (actions : List Action) (i : AlarmId) (s : State) → KeepsRules q →
        AreAdmitted q actions → slice_get q.panel.rows i.0 ≡ Some s →
        AllLeaveAlone i.0 s.shelved_until actions →
        look (run q actions) (query.Row i) ≡ look q (query.Row i) }
{}
