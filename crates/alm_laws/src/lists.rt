//! Laws of the lists.

ghost use Rattle.std.specs.Prelude.{ℕ, List, Bool, sum, map, ◌+◌, ◌%◌, ◌≡◌, ◌↔◌, ◌≤◌, ◌<◌, true, false, Some, Ok, slice_get, length, AllPairs, Contains};
ghost use Rattle.alm_types.specs.declared.attr.Attr.{Attr};
ghost use Rattle.alm_types.specs.declared.action.Action.{Action};
ghost use Rattle.alm_types.specs.declared.query.Query.TheVariants as query;
ghost use Rattle.alm_types.specs.Reports.{alarms};
ghost use Rattle.alm_state.specs.Rows.{State, is_suppressed};
ghost use Rattle.alm_model.specs.Plant.{Condensed};
ghost use Rattle.alm_model.specs.Lists.{list_of, alarms as annunciated};
ghost use Rattle.std.specs.List.{range_with_len};
ghost use Rattle.alm_model.specs.Look.{look};
ghost use Rattle.alm_model.specs.Rising.{RisesByStamp, is_by_stamp};
ghost use Rattle.alm_types.specs.Tables.{Listing, IsTable};
ghost use Rattle.alm_model.specs.Counted.{new_whole, run_whole};
ghost use Rattle.alm_model.specs.New.{new_plant};
ghost use Rattle.alm_model.specs.Rules.{KeepsRules, AreAdmitted};
ghost use Rattle.alm_model.specs.Step.{step, run};
ghost use Rattle.alm_model.specs.declared.list.List.{List as Choice};
ghost use Rattle.alm_model.specs.declared.list.List.TheVariants.{Priority, Area, Wheel, Stale, Chatter};
ghost use Rattle.alm_laws.specs.Plant.{IsAlarmOf};
ghost use Rattle.alm_laws.specs.Counts.{annunciated_within, last_three};
ghost use Rattle.alm_laws.specs.Floods.{flag_of, windows_after, HoldsSinceAbove10};
ghost use Rattle.alm_laws.specs.Listed.{HasJustThose, IsFound, IsStale, IsStaleAlarm, IsChatteringAlarm, is_flooded_by, asks_for_operator, in_last_minute, IsChronological};

/// No active alarm is hidden: without a flag it is in the list of its priority and in that of its area. A suppressed one is in none.
pub fn an_active_alarm_is_listed()
    ensures active { (q : Condensed) (i : ℕ) (a : Attr) (s : State) → IsAlarmOf q i a s →
        s.active ≡ true → is_suppressed s ≡ false → IsFound q i a }
    ensures suppressed { (q : Condensed) (i area : ℕ) (s : State) → KeepsRules q →
        slice_get q.panel.rows i ≡ Some s → is_suppressed s ≡ true →
        Contains (list_of (Area area) q) i → ⊥ }
{}

/// No shelved alarm is hidden: it is in the list of the slot that its deadline has modulo 256, and LIST S reports all of that.
pub fn a_shelved_alarm_is_listed()
    ensures listed { (q : Condensed) (i deadline : ℕ) (a : Attr) (s : State) → IsAlarmOf q i a s →
        s.shelved_until ≡ Some deadline →
        Contains (list_of (Wheel (deadline % 256)) q) i }
    ensures told { (q : Condensed) (n : ℕ) → n < 256 →
        look q (query.Wheel n) ≡ Ok (alarms (list_of (Wheel n) q)) }
{}

/// A list by stamp is the only one that rises by stamp and has just the alarms that belong to it; LIST and AREA report all of it.
pub fn the_laws_leave_one_list()
    ensures one { (q : Condensed) (list : Choice) (out : List ℕ) → KeepsRules q →
        is_by_stamp list ≡ true → (RisesByStamp q.panel out × HasJustThose q list out) ↔
        (out ≡ list_of list q) }
    ensures by_priority { (q : Condensed) (n : ℕ) → 1 ≤ n → n ≤ 4 →
        look q (query.Priority n) ≡ Ok (alarms (list_of (Priority n) q)) }
    ensures by_area { (q : Condensed) (n : ℕ) → n < length q.floods →
        look q (query.Area n) ≡ Ok (alarms (list_of (Area n) q)) }
{}

/// STALE has just the alarms that ask for the operator and were annunciated last a day ago or earlier.
pub fn a_stale_alarm_is_listed()
    ensures { (q : Condensed) (i : ℕ) (a : Attr) (s : State) → IsAlarmOf q i a s →
        Contains (list_of Stale q) i ↔ IsStale q i s }
{}

/// STALE and CHATTER are by number: each is the only list that rises and has just its alarms.
pub fn the_laws_leave_one_list_by_number()
    ensures stale { (q : Condensed) (out : List ℕ) → KeepsRules q →
        (AllPairs (λ i j. i < j) out × ((i : ℕ) → Contains out i ↔ IsStaleAlarm q i)) ↔
        (out ≡ list_of Stale q) }
    ensures chatter { (q : Condensed) (out : List ℕ) → KeepsRules q →
        (AllPairs (λ i j. i < j) out × ((i : ℕ) → Contains out i ↔ IsChatteringAlarm q i)) ↔
        (out ≡ list_of Chatter q) }
{}

/// After each action an area is flooded if its window is above 10, or if it was flooded and the window isn't below 5.
pub fn a_flood_begins_and_ends_by_its_window()
    ensures { (q : Condensed) (action : Action) (area : ℕ) (ages : List ℕ) (before : Bool) →
        slice_get (step q action).kept.ages area ≡ Some ages →
        slice_get q.floods area ≡ Some before →
        slice_get (step q action).floods area ≡ Some (is_flooded_by (sum ages) before) }
{}

/// CHATTER has just the alarms with three annunciations or more within the last minute.
pub fn a_chattering_alarm_is_listed()
    ensures { (q : Condensed) (i : ℕ) (a : Attr) (s : State) (moments : List ℕ) →
        IsAlarmOf q i a s → slice_get q.kept.moments i ≡ Some moments →
        Contains (list_of Chatter q) i ↔ (3 ≤ in_last_minute q.panel.now moments) }
{}

/// The lists by priority together have each annunciated alarm once, and so have those by area.
pub fn the_lists_add_up()
    ensures priorities { (q : Condensed) →
        length (list_of (Priority 1) q) + length (list_of (Priority 2) q) + length (list_of
        (Priority 3) q) + length (list_of (Priority 4) q) ≡
        length (annunciated asks_for_operator q.panel.attrs q.panel.rows) }
    ensures areas { (q : Condensed) → KeepsRules q →
        sum (map (λ n. length (list_of (Area n) q)) (range_with_len 0 (length q.floods))) ≡
        length (annunciated asks_for_operator q.panel.attrs q.panel.rows) }
{}

/// After any actions from a new plant on, of two alarms in a list by stamp the upper one's last annunciation is no later.
pub fn lists_are_chronological()
    ensures { (t : Listing) (actions : List Action) → IsTable t →
        AreAdmitted (new_plant t) actions → IsChronological (run (new_plant t) actions) }
{}

/// After any actions an area without a flood is flooded exactly if its window was above 10 after one of them, and not below 5 after any since.
pub fn a_flood_lasts_from_above_10_to_below_5()
    ensures { (q : Condensed) (actions : List Action) (area : ℕ) → KeepsRules q →
        AreAdmitted q actions → slice_get q.floods area ≡ Some false →
        (flag_of (run q actions) area ≡ true) ↔ HoldsSinceAbove10 (windows_after q actions area) }
{}

/// After any actions from a new plant on, the window of FLOOD is the number of the area's annunciations within the last 600 seconds.
/// The moments that STALE and CHATTER go by are the alarm's last three.
pub fn measures_count_every_annunciation()
    ensures windows { (t : Listing) (actions : List Action) (area : ℕ) (ages : List ℕ) → IsTable t →
        AreAdmitted (new_plant t) actions →
        slice_get (run (new_plant t) actions).kept.ages area ≡ Some ages →
        sum ages ≡ annunciated_within 600 (run_whole (new_whole t) actions) area }
    ensures moments { (t : Listing) (actions : List Action) (i : ℕ) (moments : List ℕ) → IsTable t →
        AreAdmitted (new_plant t) actions →
        slice_get (run (new_plant t) actions).kept.moments i ≡ Some moments →
        moments ≡ last_three (run_whole (new_whole t) actions) i }
{}
