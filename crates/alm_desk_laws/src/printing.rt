//! Laws of a desk that began with a new plant.

ghost use Rattle.std.specs.Prelude.{◌≡◌, ◌↔◌, ◌+◌, ◌-◌, ◌<◌, ◌≤◌, ℕ, List, [], ◌∷◌, Some, None, length, map, slice_get, take, drop, AllPairs, Contains};
ghost use Rattle.alm_types.specs.declared.event.Event.{Event};
ghost use Rattle.alm_types.specs.declared.refusal.Refusal.TheVariants.{Forgotten};
ghost use Rattle.alm_types.specs.Counts.{one_more};
ghost use Rattle.alm_events.specs.Events.{most_kept, most_told};
ghost use Rattle.alm_lines.specs.Since.{recalled_text};
ghost use Rattle.alm_types.specs.declared.want.Want.{Want};
ghost use Rattle.alm_types.specs.declared.alarm_id.AlarmId.{AlarmId};
ghost use Rattle.alm_types.specs.declared.attr.Attr.{Attr};
ghost use Rattle.alm_types.specs.declared.query.Query.TheVariants as query;
ghost use Rattle.alm_types.specs.declared.refusal.Refusal.{Refusal};
ghost use Rattle.alm_types.specs.declared.shown.Shown.{Shown};
ghost use Rattle.alm_types.specs.Reports.{alarm, alarms, row};
ghost use Rattle.alm_types.specs.Tables.{Listing};
ghost use Rattle.alm_state.specs.Rows.{State};
ghost use Rattle.alm_model.specs.Plant.{Condensed};
ghost use Rattle.alm_model.specs.New.{new_plant};
ghost use Rattle.alm_model.specs.Rising.{RisesByStamp};
ghost use Rattle.alm_model.specs.Rules.{AreAdmitted};
ghost use Rattle.alm_model.specs.Step.{run};
ghost use Rattle.alm_model.specs.declared.list.List.TheVariants.{Priority, Area, Wheel};
ghost use Rattle.alm_lines.specs.Reply.{no_text, ok_text};
ghost use Rattle.alm_desk.specs.Answers.{DeskState, AnsweredLine, request};
ghost use Rattle.alm_laws.specs.Listed.{HasJustThose, IsStaleAlarm, IsChatteringAlarm};
ghost use Rattle.alm_laws.specs.Refused.{reasons};
ghost use Rattle.alm_laws.specs.Shown.{IsShownAsItIs, flags_shown, row_shown};
ghost use Rattle.alm_laws.specs.Taken.{IsAcceptable};
ghost use Rattle.alm_desk_laws.specs.Done.{HasAnswered, PrintsReport, done, happened, reply_to_action, reply_to_since};

/// The plant is the new one after the actions that the lines have done. Each was admitted at its turn.
pub fn the_plant_is_what_its_lines_have_done()
    ensures run { (t : Listing) (s : DeskState) (lines : List AnsweredLine) (q : Condensed) →
        HasAnswered t s lines q → q ≡ run (new_plant t) (done s lines) }
    ensures admitted { (t : Listing) (s : DeskState) (lines : List AnsweredLine) (q : Condensed) →
        HasAnswered t s lines q → AreAdmitted (new_plant t) (done s lines) }
    ensures count { (t : Listing) (s : DeskState) (lines : List AnsweredLine) (q : Condensed) →
        HasAnswered t s lines q → q.panel.count ≡ length (done s lines) }
{}

/// A request that its slot may ask for, and that is possible, is answered with the next number.
pub fn ok_is_printed_where_it_may_be_done()
    ensures { (t : Listing) (s : DeskState) (lines : List AnsweredLine) (q : Condensed) →
        HasAnswered t s lines q → (slot id : ℕ) (want : Want) →
        IsAcceptable q.panel (request slot want) →
        reply_to_action s lines slot id want ≡ ok_text id (length (done s lines) + 1) }
{}

/// A request with a reason against it is answered with the number of the first, and does nothing.
pub fn no_is_printed_for_the_first_reason()
    ensures { (t : Listing) (s : DeskState) (lines : List AnsweredLine) (q : Condensed) →
        HasAnswered t s lines q → (slot id : ℕ) (want : Want) (first : Refusal)
        (others : List Refusal) → reasons q.panel (request slot want) ≡ first ∷ others →
        reply_to_action s lines slot id want ≡ no_text id first }
{}

/// STATE prints the only thing that answers seven questions on the alarm as it is, ROW that with stamp, limits and moments.
pub fn an_alarm_is_printed_as_it_is()
    ensures state { (t : Listing) (s : DeskState) (lines : List AnsweredLine) (q : Condensed) →
        HasAnswered t s lines q → (slot id : ℕ) (i : AlarmId) (r : State) (x : Shown) →
        slice_get q.panel.rows i.0 ≡ Some r → IsShownAsItIs r x →
        PrintsReport s lines slot id (query.State i) (alarm x r.active (flags_shown r) r.shelved_until) }
    ensures row { (t : Listing) (s : DeskState) (lines : List AnsweredLine) (q : Condensed) →
        HasAnswered t s lines q → (slot id : ℕ) (i : AlarmId) (r : State) (a : Attr) (x : Shown)
        (moments : List ℕ) → slice_get q.panel.rows i.0 ≡ Some r →
        slice_get q.panel.attrs i.0 ≡ Some a → slice_get q.kept.moments i.0 ≡ Some moments →
        IsShownAsItIs r x → PrintsReport s lines slot id (query.Row i) (row (Some (row_shown r a moments x))) }
{}

/// LIST prints the only list that has just the alarms that belong to it, the earliest stamp first; STALE and CHATTER theirs by number.
pub fn a_list_is_printed_whole()
    ensures by_priority { (t : Listing) (s : DeskState) (lines : List AnsweredLine) (q : Condensed) →
        HasAnswered t s lines q → (slot id n : ℕ) (out : List ℕ) → 1 ≤ n → n ≤ 4 →
        RisesByStamp q.panel out → HasJustThose q (Priority n) out →
        PrintsReport s lines slot id (query.Priority n) (alarms out) }
    ensures by_area { (t : Listing) (s : DeskState) (lines : List AnsweredLine) (q : Condensed) →
        HasAnswered t s lines q → (slot id n : ℕ) (out : List ℕ) → n < length q.floods →
        RisesByStamp q.panel out → HasJustThose q (Area n) out →
        PrintsReport s lines slot id (query.Area n) (alarms out) }
    ensures by_deadline { (t : Listing) (s : DeskState) (lines : List AnsweredLine) (q : Condensed) →
        HasAnswered t s lines q → (slot id n : ℕ) (out : List ℕ) → n < 256 →
        RisesByStamp q.panel out → HasJustThose q (Wheel n) out →
        PrintsReport s lines slot id (query.Wheel n) (alarms out) }
    ensures stale { (t : Listing) (s : DeskState) (lines : List AnsweredLine) (q : Condensed) →
        HasAnswered t s lines q → (slot id : ℕ) (out : List ℕ) → AllPairs (λ i j. i < j) out →
        ((i : ℕ) → Contains out i ↔ IsStaleAlarm q i) →
        PrintsReport s lines slot id query.Stale (alarms out) }
    ensures chatter { (t : Listing) (s : DeskState) (lines : List AnsweredLine) (q : Condensed) →
        HasAnswered t s lines q → (slot id : ℕ) (out : List ℕ) → AllPairs (λ i j. i < j) out →
        ((i : ℕ) → Contains out i ↔ IsChatteringAlarm q i) →
        PrintsReport s lines slot id query.Chatter (alarms out) }
{}

/// SINCE prints what the lines have done after a number, in order and at most 256: each action with its slot and the plant's moment
/// after it. Only if one of them isn't among the last 65,536 it prints that it is forgotten. A desk that begins remembers nothing.
pub fn what_happened_is_printed_in_order()
    ensures actions { (s : DeskState) (lines : List AnsweredLine) →
        map (λ (e : Event). e.action) (happened s lines) ≡ done s lines }
    ensures told { (t : Listing) (s : DeskState) (lines : List AnsweredLine) (q : Condensed) →
        HasAnswered t s lines q → s.recent ≡ [] → (slot id n : ℕ) →
        length (done s lines) ≤ n + most_kept → reply_to_since s lines slot id (Some n) ≡
        recalled_text id (length (done s lines)) (one_more n)
        (take most_told (drop n (happened s lines))) }
    ensures forgotten { (t : Listing) (s : DeskState) (lines : List AnsweredLine) (q : Condensed) →
        HasAnswered t s lines q → s.recent ≡ [] → (slot id n : ℕ) →
        n + most_kept < length (done s lines) →
        reply_to_since s lines slot id (Some n) ≡ no_text id Forgotten }
    ensures oldest { (t : Listing) (s : DeskState) (lines : List AnsweredLine) (q : Condensed) →
        HasAnswered t s lines q → s.recent ≡ [] → (slot id : ℕ) →
        reply_to_since s lines slot id None ≡
        reply_to_since s lines slot id (Some (length (done s lines) - most_kept)) }
{}
