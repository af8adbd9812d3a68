//! Laws of one alarm, as an alarm engineer asks for them: each function does nothing, and its contract is the law.

ghost use Rattle.std.specs.Prelude.{◌≡◌, ℕ, true, false, Bool, not, ◌&&◌, is_none, IsTrue};
ghost use Rattle.alm_types.specs.declared.attr.Attr.{Attr};
ghost use Rattle.alm_types.specs.declared.action.Action.{Action};
ghost use Rattle.alm_state.specs.Rows.{State, IsState, is_suppressed};
ghost use Rattle.alm_state.specs.Outcome.{outcome, row_refusal};
ghost use Rattle.alm_state.specs.Suits.{suits};
ghost use Rattle.alm_state.specs.Showing.{shown_of};
ghost use Rattle.alm_state.specs.declared.core_state.Core.TheVariants.{Normal};
ghost use Rattle.alm_laws.specs.Left.{condition_left};
ghost use Rattle.alm_laws.specs.Alarm.{
  annunciates,
  TakesAction,
  acknowledges,
  resets,
  is_unacknowledged,
  is_latched,
  row_left,
  suppresses,
  is_shown_suppressed,
  LeavesUnacknowledgedOnlyByAckOrFlag,
  LeavesLatchOnlyByResetOrFlag,
  IsAnnunciatedJustThen,
  WaitsWithStamp,
  EndsShelvingJustByUnshelve,
  BeginsShelvingOnlyByShelve,
};

/// Only the operator acknowledges.
pub fn nobody_acknowledges_for_the_operator()
    ensures { (now stamp : ℕ) (action : Action) (a : Attr) (s : State) → TakesAction action a s →
        LeavesUnacknowledgedOnlyByAckOrFlag action s (row_left (outcome now stamp action a s)) }
{}

/// The operator's acknowledgement is taken exactly if the alarm is unacknowledged, and acknowledges it; a reset is taken exactly
/// if it is latched and acknowledged, and ends it.
pub fn the_operator_is_heard()
    ensures acknowledge { (action : Action) (a : Attr) (s : State) → acknowledges action ≡ true →
        IsTrue (suits a.latching s.core) →
        is_none (row_refusal action a s) ≡ is_unacknowledged s.core }
    ensures reset { (action : Action) (a : Attr) (s : State) → resets action ≡ true →
        IsTrue (suits a.latching s.core) →
        is_none (row_refusal action a s) ≡ (is_latched s.core && not (is_unacknowledged s.core)) }
    ensures acknowledged { (now stamp : ℕ) (action : Action) (a : Attr) (s : State) →
        acknowledges action ≡ true → TakesAction action a s →
        is_unacknowledged (row_left (outcome now stamp action a s)).core ≡ false }
    ensures ended { (now stamp : ℕ) (action : Action) (a : Attr) (s : State) →
        resets action ≡ true → TakesAction action a s →
        (row_left (outcome now stamp action a s)).core ≡ Normal }
{}

/// What is latched stays until it is reset.
pub fn latched_stays_until_reset()
    ensures { (now stamp : ℕ) (action : Action) (a : Attr) (s : State) → TakesAction action a s →
        LeavesLatchOnlyByResetOrFlag action s (row_left (outcome now stamp action a s)) }
{}

/// An alarm is annunciated again exactly if its condition comes, or its last flag falls while the condition holds.
pub fn annunciated_just_then()
    ensures then { (now stamp : ℕ) (action : Action) (a : Attr) (s : State) →
        TakesAction action a s → IsAnnunciatedJustThen s (outcome now stamp action a s) }
    ensures waits { (now stamp : ℕ) (action : Action) (a : Attr) (s : State) →
        TakesAction action a s → WaitsWithStamp stamp (outcome now stamp action a s) }
{}

/// What sets a flag leaves the alarm suppressed; a suppressed alarm asks for no operator, and is shown so.
pub fn suppressed_asks_for_nobody()
    ensures set { (now stamp : ℕ) (action : Action) (a : Attr) (s : State) →
        suppresses action ≡ true → is_suppressed (row_left (outcome now stamp action a s)) ≡ true }
    ensures quiet { (s : State) → IsState s → is_suppressed s ≡ true → s.core ≡ Normal }
    ensures shown { (s : State) → is_suppressed s ≡ is_shown_suppressed (shown_of s) }
{}

/// Among the actions that name an alarm, SHELVE alone begins its shelving, and UNSHELVE alone ends it.
pub fn shelving_is_the_operators()
    ensures ends { (now stamp : ℕ) (action : Action) (a : Attr) (s : State) →
        TakesAction action a s → EndsShelvingJustByUnshelve action s (row_left (outcome now stamp
        action a s)) }
    ensures begins { (now stamp : ℕ) (action : Action) (a : Attr) (s : State) →
        TakesAction action a s → BeginsShelvingOnlyByShelve action s (row_left (outcome now stamp
        action a s)) }
{}

/// What is acknowledged is unacknowledged again only by an annunciation.
pub fn acknowledged_until_annunciated_again()
    ensures { (now stamp : ℕ) (action : Action) (a : Attr) (s : State) → TakesAction action a s →
        IsTrue (suits a.latching s.core) → is_unacknowledged s.core ≡ false →
        is_unacknowledged (row_left (outcome now stamp action a s)).core ≡ true →
        annunciates (outcome now stamp action a s) ≡ true }
{}

/// A value at the setpoint or beyond it leaves the alarm active, one back by more than the deadband leaves it inactive, any other
/// leaves it as it was. No other action moves the condition.
pub fn the_condition_follows_the_value()
    ensures { (now stamp : ℕ) (action : Action) (a : Attr) (s : State) →
        (row_left (outcome now stamp action a s)).active ≡ condition_left action a s.active }
{}
