//! A look that reports what happened.

use crate::look::Look;
use alm_events::Recalled;
use alm_types::{Event, Refusal};

/// A look that reports what happened, too.
pub trait Recall: Look {
    ghost use Rattle.std.specs.Prelude.{◌≡◌, ◌≤◌, ℕ, List, Option, Result, vec_capacity};
    ghost use Rattle.alm_types.specs.declared.logged_action.LoggedAction.{LoggedAction};
    ghost use Rattle.alm_types.specs.declared.refusal.Refusal.{Refusal};
    ghost use Rattle.alm_model.specs.Judging.{logged_actions};
    ghost use Rattle.alm_events.specs.Events.{most_told};
    ghost use Rattle.alm_events.specs.declared.recalled.Recalled.{Recalled};
    ghost use Rattle.alm_board.specs.PrefixesOf.{IsPrefixOf};
    ghost use Rattle.alm_board.specs.Recalls.{RecallAnswers};

    /// The published actions that it knows, each with its request.
    ghost logged: { Self → List LoggedAction };

    /// That this was reported of what came after a number, between these states: only a recall establishes it.
    ghost recalled: { Self → Option ℕ → Result Recalled Refusal → Self → Type 0 } = { λ _ _ _ _. Unit {0} };

    /// Reports the accepted actions after number `after`, at most 256, or the oldest that are remembered. `Forgotten` if one of them is no
    /// longer among the last 65,536, or came before the server was opened.
    fn recall(&mut self, after: Option<u64>, events: &mut Vec<Event>) -> Result<Recalled, Refusal>
        requires { most_told ≤ vec_capacity events.old }
        ensures base { Self.Look.base self.new ≡ Self.Look.base self.old }
        ensures later { IsPrefixOf (logged self.old) (logged self.new) }
        ensures known { (logged_actions (logged self.old) ≡ Self.Look.knows self.old) ×
            (logged_actions (logged self.new) ≡ Self.Look.knows self.new) }
        ensures answer { RecallAnswers (Self.Look.base self.old) (logged self.old) (logged self.new)
            after events.old.items events.new.items result }
        ensures room { vec_capacity events.new ≡ vec_capacity events.old }
        ensures made { recalled self.old after result self.new };
}
