//! Laws of what is shown of an alarm.

ghost use Rattle.std.specs.Prelude.{◌≡◌, ◌↔◌, ◌⊎◌, ◌<◌, ◌≤◌, ℕ, Bool, List, Some, None, Ok, Err, slice_get, sum, length};
ghost use Rattle.alm_types.specs.declared.alarm_id.AlarmId.{AlarmId};
ghost use Rattle.alm_types.specs.declared.attr.Attr.{Attr};
ghost use Rattle.alm_types.specs.declared.query.Query.TheVariants as query;
ghost use Rattle.alm_types.specs.declared.refusal.Refusal.TheVariants.{NoSuchAlarm, NoSuchList};
ghost use Rattle.alm_types.specs.declared.shown.Shown.{Shown};
ghost use Rattle.alm_types.specs.Reports.{alarm, alarms, flood, plant, attributes, row};
ghost use Rattle.alm_state.specs.Rows.{State};
ghost use Rattle.alm_state.specs.Showing.{shown_of};
ghost use Rattle.alm_model.specs.Plant.{Condensed};
ghost use Rattle.alm_model.specs.Lists.{list_of};
ghost use Rattle.alm_model.specs.Look.{look};
ghost use Rattle.alm_model.specs.declared.list.List.TheVariants.{Stale, Chatter};
ghost use Rattle.alm_laws.specs.Shown.{IsShownAsItIs, flags_shown, row_shown};

/// What is shown of an alarm is the only thing that answers seven questions as it does. STATE reports it, with its condition, its
/// flags and the end of its shelving.
pub fn an_alarm_is_shown_as_it_is()
    ensures one { (s : State) (x : Shown) → IsShownAsItIs s x ↔ (x ≡ shown_of s) }
    ensures told { (q : Condensed) (i : AlarmId) (s : State) → slice_get q.panel.rows i.0 ≡ Some s →
        look q (query.State i) ≡ Ok (alarm (shown_of s) s.active (flags_shown s) s.shelved_until) }
{}

/// FLOOD reports the window and the flag of an area, PLANT the moment and the sizes, ATTR the attributes in force, STALE and CHATTER all of
/// their lists. ROW reports what STATE does, with the stamp, the priority and the setpoint in force, and the moments of the last three
/// annunciations. Of an alarm, an area, a priority or a slot that isn't there each is refused.
pub fn queries_report_the_plant()
    ensures flood { (q : Condensed) (area : ℕ) (ages : List ℕ) (on : Bool) →
        slice_get q.kept.ages area ≡ Some ages → slice_get q.floods area ≡ Some on →
        look q (query.Flood area) ≡ Ok (flood (sum ages) on) }
    ensures plant { (q : Condensed) →
        look q query.Plant ≡ Ok (plant q.panel.now (length q.panel.rows) (length q.floods)) }
    ensures attributes { (q : Condensed) (i : AlarmId) (a : Attr) →
        slice_get q.panel.attrs i.0 ≡ Some a →
        look q (query.Attributes i) ≡ Ok (attributes (Some a)) }
    ensures row { (q : Condensed) (i : AlarmId) (s : State) (a : Attr) (moments : List ℕ) →
        slice_get q.panel.rows i.0 ≡ Some s → slice_get q.panel.attrs i.0 ≡ Some a →
        slice_get q.kept.moments i.0 ≡ Some moments →
        look q (query.Row i) ≡ Ok (row (Some (row_shown s a moments (shown_of s)))) }
    ensures stale { (q : Condensed) → look q query.Stale ≡ Ok (alarms (list_of Stale q)) }
    ensures chatter { (q : Condensed) → look q query.Chatter ≡ Ok (alarms (list_of Chatter q)) }
    ensures refused { (q : Condensed) (i : AlarmId) → slice_get q.panel.rows i.0 ≡ None →
        (look q (query.State i) ≡ Err NoSuchAlarm) × (look q (query.Row i) ≡ Err NoSuchAlarm) }
    ensures unlisted { (q : Condensed) (i : AlarmId) → slice_get q.panel.attrs i.0 ≡ None →
        look q (query.Attributes i) ≡ Err NoSuchAlarm }
    ensures no_area { (q : Condensed) (n : ℕ) → slice_get q.floods n ≡ None →
        look q (query.Flood n) ≡ Err NoSuchList }
    ensures no_list { (q : Condensed) (n : ℕ) → ((n ≡ 0) ⊎ (4 < n) →
        look q (query.Priority n) ≡ Err NoSuchList) × (length q.floods ≤ n →
        look q (query.Area n) ≡ Err NoSuchList) × (256 ≤ n →
        look q (query.Wheel n) ≡ Err NoSuchList) }
{}
