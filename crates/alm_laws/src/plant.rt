//! Laws of the alarms of a plant.

ghost use Rattle.std.specs.Prelude.{ℕ, ◌+◌, ◌<◌, ◌≤◌, List, Bool, ◌≡◌, ◌↔◌, true, false, Some, Ok, slice_get, Contains};
ghost use Rattle.alm_types.specs.declared.attr.Attr.{Attr};
ghost use Rattle.alm_types.specs.declared.action.Action.{Action};
ghost use Rattle.alm_state.specs.Rows.{is_suppressed};
ghost use Rattle.alm_state.specs.declared.core_state.Core.TheVariants.{Normal};
ghost use Rattle.alm_model.specs.Lists.{list_of};
ghost use Rattle.alm_model.specs.Rules.{KeepsRules, AreAdmitted};
ghost use Rattle.alm_model.specs.Accept.{accept};
ghost use Rattle.alm_model.specs.Step.{step, run};
ghost use Rattle.alm_laws.specs.Moved.{LeftByItsAction, LeftByTheClock, EndsOnlyByReset, ShelvedAsAsked, FlaggedAsAsked, IsOfNewPlant};
ghost use Rattle.alm_types.specs.Tables.{Listing};
ghost use Rattle.alm_model.specs.New.{new_plant};
ghost use Rattle.alm_model.specs.declared.list.List.TheVariants.{Priority};
ghost use Rattle.alm_types.specs.declared.request.Request.{Request};
ghost use Rattle.alm_types.specs.Wants.{wanted_action};
ghost use Rattle.alm_state.specs.Rows.{State};
ghost use Rattle.alm_model.specs.Plant.{Condensed};
ghost use Rattle.alm_laws.specs.Steps.{IsLeftBehind};
ghost use Rattle.alm_laws.specs.Plant.{Becomes, IsAlarmOf, IsAcknowledgedByConsoleOrFlag, IsResetByConsoleOrFlag, ShelvingEndsOnlyByUnshelveOrClock, ClockEndsTheShelving, FreedIsAnnunciatedAnew, AnnunciatedOnlyThen, OthersStay};

/// In a new plant each alarm is normal and has no flag, no area is flooded, and the moment and the count are 0.
pub fn a_new_plant_is_at_rest()
    ensures alarms { (t : Listing) (i : ℕ) (s : State) →
        slice_get (new_plant t).panel.rows i ≡ Some s → IsOfNewPlant s }
    ensures floods { (t : Listing) (area : ℕ) (flag : Bool) →
        slice_get (new_plant t).floods area ≡ Some flag → flag ≡ false }
    ensures moment { (t : Listing) → (new_plant t).panel.now ≡ 0 }
    ensures count { (t : Listing) → (new_plant t).panel.count ≡ 0 }
    ensures attributes { (t : Listing) → (new_plant t).panel.attrs ≡ t.alarms }
{}

/// Only the operator acknowledges.
pub fn nobody_acknowledges_for_the_operator()
    ensures { (q : Condensed) (r : Request) (i : ℕ) (s t : State) → Becomes q r i s t →
        IsAcknowledgedByConsoleOrFlag r i s t }
{}

/// Each alarm is left as the laws of one alarm say: the one that is named by its action, one whose deadline has come as by UNSHELVE.
pub fn each_alarm_is_left_by_the_laws()
    ensures named { (q : Condensed) (r : Request) (i : ℕ) (a : Attr) (s t : State) →
        Becomes q r i s t → slice_get q.panel.attrs i ≡ Some a → LeftByItsAction q r i a s t }
    ensures due { (q : Condensed) (r : Request) (i : ℕ) (a : Attr) (s t : State) →
        Becomes q r i s t → slice_get q.panel.attrs i ≡ Some a → LeftByTheClock q r a s t }
    ensures others { (q : Condensed) (r : Request) (i : ℕ) (s t : State) → Becomes q r i s t →
        OthersStay r i s t }
{}

/// What an accepted action leaves is the only plant that meets the sentences on time, alarms, stamps, measures and floods.
pub fn the_laws_leave_one_plant()
    ensures { (q p : Condensed) (r : Request) → KeepsRules q → accept q.panel r ≡ Ok (wanted_action r) →
        IsLeftBehind q r p ↔ (p ≡ step q (wanted_action r)) }
{}

/// What is latched stays until it is reset.
pub fn latched_stays_until_reset()
    ensures { (q : Condensed) (r : Request) (i : ℕ) (s t : State) → Becomes q r i s t →
        IsResetByConsoleOrFlag r i s t }
{}

/// A latching alarm that asks for the operator ends by a console's RESET or by a flag, also after ACK and return.
pub fn a_latching_alarm_ends_only_by_reset()
    ensures { (q : Condensed) (r : Request) (i : ℕ) (a : Attr) (s t : State) → Becomes q r i s t →
        slice_get q.panel.attrs i ≡ Some a → a.latching ≡ true → EndsOnlyByReset r i s t }
{}

/// A shelving lasts as long as its console asked, and none is overdue after any actions.
pub fn a_shelved_alarm_comes_back()
    ensures asked { (q : Condensed) (r : Request) (i : ℕ) (s t : State) → Becomes q r i s t →
        ShelvedAsAsked q r i s t }
    ensures ahead { (q : Condensed) (i deadline : ℕ) (a : Attr) (s : State) → IsAlarmOf q i a s →
        s.shelved_until ≡ Some deadline →
        (q.panel.now < deadline) × (deadline ≤ q.panel.now + a.max_shelve) }
    ensures runs { (q : Condensed) (actions : List Action) (i deadline : ℕ) (s : State) →
        KeepsRules q → AreAdmitted q actions → slice_get (run q actions).panel.rows i ≡ Some s →
        s.shelved_until ≡ Some deadline → (run q actions).panel.now < deadline }
{}

/// Out of service and by design are as was asked last.
pub fn flags_are_as_asked()
    ensures { (q : Condensed) (r : Request) (i : ℕ) (a : Attr) (s t : State) → Becomes q r i s t →
        slice_get q.panel.attrs i ≡ Some a → FlaggedAsAsked r i s t }
{}

/// A shelving ends by a console's UNSHELVE or by the clock, which ends each whose deadline has come.
pub fn shelvings_end_by_unshelve_or_clock()
    ensures only { (q : Condensed) (r : Request) (i : ℕ) (s t : State) → Becomes q r i s t →
        ShelvingEndsOnlyByUnshelveOrClock r i s t }
    ensures due { (q : Condensed) (r : Request) (i : ℕ) (s t : State) → Becomes q r i s t →
        ClockEndsTheShelving r s t }
{}

/// An alarm whose last flag falls while it is active is annunciated again, and no other alarm is, unless its condition
/// comes.
pub fn freed_is_annunciated_anew()
    ensures freed { (q : Condensed) (r : Request) (i : ℕ) (s t : State) → Becomes q r i s t →
        FreedIsAnnunciatedAnew q s t }
    ensures only { (q : Condensed) (r : Request) (i : ℕ) (s t : State) → Becomes q r i s t →
        AnnunciatedOnlyThen s t }
    ensures others { (q : Condensed) (r : Request) (i : ℕ) (s t : State) → Becomes q r i s t →
        OthersStay r i s t }
{}

/// A suppressed alarm is Normal, and is in no list by priority.
pub fn suppressed_asks_for_nobody()
    ensures { (q : Condensed) (i priority : ℕ) (s : State) → KeepsRules q →
        slice_get q.panel.rows i ≡ Some s → is_suppressed s ≡ true →
        (s.core ≡ Normal) × (Contains (list_of (Priority priority) q) i → ⊥) }
{}
