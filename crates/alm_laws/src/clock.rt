//! Laws of what is set: the time, the count, priorities and setpoints.

ghost use Rattle.std.specs.Prelude.{ℕ, ℤ, ◌+◌, ◌≤◌, ◌≡◌, true, Some, slice_get};
ghost use Rattle.alm_types.specs.declared.alarm_id.AlarmId.{AlarmId};
ghost use Rattle.alm_types.specs.declared.attr.Attr.{Attr};
ghost use Rattle.alm_types.specs.declared.action.Action.{Action};
ghost use Rattle.alm_types.specs.declared.action.Action.TheVariants.{Clock, SetPriority, SetSetpoint};
ghost use Rattle.alm_types.specs.declared.request.Request.{Request};
ghost use Rattle.alm_types.specs.Readings.{is_reading};
ghost use Rattle.alm_state.specs.Rows.{State};
ghost use Rattle.alm_model.specs.Plant.{Condensed};
ghost use Rattle.alm_model.specs.Step.{step};
ghost use Rattle.alm_laws.specs.Plant.{Becomes};
ghost use Rattle.alm_laws.specs.Clock.{EndInOrder, SameButPriority, SameButSetpoint};

/// A CLOCK moves the time to the moment that it names.
pub fn the_time_is_as_told()
    ensures { (q : Condensed) (t : ℕ) → (step q (Clock t)).panel.now ≡ t }
{}

/// Each action counts once.
pub fn each_action_is_counted()
    ensures { (q : Condensed) (action : Action) → (step q action).panel.count ≡ q.panel.count + 1 }
{}

/// The shelvings that one CLOCK ends are annunciated by deadline, then by number.
pub fn shelvings_end_in_order()
    ensures { (q : Condensed) (r : Request) (i j : ℕ) (s t u v : State) → Becomes q r i s t →
        Becomes q r j u v → EndInOrder r i s t j u v }
{}

/// PRIO and SETP set that attribute of that alarm, and nothing else of it; no row changes.
pub fn priority_and_setpoint_are_as_asked()
    ensures priority { (q : Condensed) (i : AlarmId) (n : ℕ) (a b : Attr) → 1 ≤ n → n ≤ 4 →
        slice_get q.panel.attrs i.0 ≡ Some a →
        slice_get (step q (SetPriority i n)).panel.attrs i.0 ≡ Some b →
        (b.priority ≡ n) × SameButPriority a b }
    ensures setpoint { (q : Condensed) (i : AlarmId) (v : ℤ) (a b : Attr) → is_reading v ≡ true →
        slice_get q.panel.attrs i.0 ≡ Some a →
        slice_get (step q (SetSetpoint i v)).panel.attrs i.0 ≡ Some b →
        (b.setpoint ≡ v) × SameButSetpoint a b }
    ensures rows_priority { (q : Condensed) (i : AlarmId) (n : ℕ) →
        (step q (SetPriority i n)).panel.rows ≡ q.panel.rows }
    ensures rows_setpoint { (q : Condensed) (i : AlarmId) (v : ℤ) →
        (step q (SetSetpoint i v)).panel.rows ≡ q.panel.rows }
{}
