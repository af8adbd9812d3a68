//! Laws that leave one model: of the core states, of the row that an action leaves, of what is taken and why the rest is refused.

ghost use Rattle.std.specs.Prelude.{ℕ, ◌≡◌, ◌↔◌, Bool, true, is_some, is_none, IsTrue, Ok, Contains, map};
ghost use Rattle.alm_types.specs.declared.attr.Attr.{Attr};
ghost use Rattle.alm_types.specs.declared.action.Action.{Action};
ghost use Rattle.std.specs.List.{range_with_len};
ghost use Rattle.alm_types.specs.Refusals.{number_of};
ghost use Rattle.alm_types.specs.declared.refusal.Refusal.{Refusal};
ghost use Rattle.alm_types.specs.declared.request.Request.{Request};
ghost use Rattle.alm_types.specs.Wants.{wanted_action};
ghost use Rattle.alm_state.specs.Rows.{State};
ghost use Rattle.alm_state.specs.Outcome.{outcome, row_refusal};
ghost use Rattle.alm_state.specs.Suits.{suits};
ghost use Rattle.alm_state.specs.Table.{next_core};
ghost use Rattle.alm_state.specs.declared.core_state.Core.{Core};
ghost use Rattle.alm_state.specs.declared.happening.Happening.{Happening};
ghost use Rattle.alm_state.specs.declared.outcome.Outcome.{Outcome};
ghost use Rattle.alm_model.specs.Plant.{Condensed};
ghost use Rattle.alm_model.specs.Accept.{accept};
ghost use Rattle.alm_model.specs.Rules.{KeepsRules};
ghost use Rattle.alm_laws.specs.Alarm.{TakesAction};
ghost use Rattle.alm_laws.specs.Refused.{all_refusals, by_first_reason, reasons};
ghost use Rattle.alm_laws.specs.Left.{IsLeft};
ghost use Rattle.alm_laws.specs.Table.{can_happen, is_that, meets_the_laws};
ghost use Rattle.alm_laws.specs.Taken.{is_taken, IsAcceptable};

/// The table of the core states is the only one that meets eight sentences, and has a row exactly if something can happen.
pub fn the_laws_leave_one_table()
    ensures rows { (latching : Bool) (h : Happening) (c : Core) → suits latching c ≡ true →
        is_some (next_core latching h c) ≡ can_happen h c }
    ensures one { (latching : Bool) (h : Happening) (c d : Core) → suits latching c ≡ true →
        is_some (next_core latching h c) ≡ true →
        meets_the_laws latching h c d ≡ is_that (next_core latching h c) d }
{}

/// What an action makes of an alarm is the only outcome whose fields are as the laws say.
pub fn the_laws_leave_one_row()
    ensures { (now stamp : ℕ) (action : Action) (a : Attr) (s : State) (o : Outcome) →
        TakesAction action a s → IsTrue (suits a.latching s.core) →
        IsLeft now stamp action a s o ↔ (o ≡ outcome now stamp action a s) }
{}

/// An alarm takes exactly what the laws say, and a request is accepted exactly if its slot may ask, it is possible, and numbers are left.
pub fn taken_just_then()
    ensures row { (action : Action) (a : Attr) (s : State) → IsTrue (suits a.latching s.core) →
        is_none (row_refusal action a s) ≡ is_taken action a s }
    ensures request { (q : Condensed) (r : Request) → KeepsRules q →
        (accept q.panel r ≡ Ok (wanted_action r)) ↔ IsAcceptable q.panel r }
{}

/// A request is refused for the first of the reasons against it, and accepted if there is none.
pub fn a_refusal_names_the_first_reason()
    ensures { (q : Condensed) (r : Request) → KeepsRules q →
        accept q.panel r ≡ by_first_reason (wanted_action r) (reasons q.panel r) }
{}

/// Each refusal has a number of its own, from 1 to 22.
pub fn refusals_are_numbered()
    ensures numbers { map number_of all_refusals ≡ range_with_len 1 22 }
    ensures all { (refusal : Refusal) → Contains all_refusals refusal }
{}
