//! A prefix of a run's history.
ghost use Rattle.std.specs.Prelude.{◌≡◌, ◌+◌, ◌≤◌, ◌++◌, ◌⊎◌, ◌↔◌, length, IsTrue};
ghost use mathlib.Core.List.{IsPrefix};
ghost use Rattle.alm_model.specs.Judging.{logged_actions};
ghost use Rattle.alm_model.specs.Rules.{AllAdmitted};
ghost use Rattle.alm_model.specs.Step.{run};
ghost use Rattle.alm_types.specs.Sizes.{most_actions};
ghost use Rattle.alm_board.specs.PrefixesOf.{IsPrefixOf};
ghost use Rattle.alm_shared.specs.Growing.{HasLast, joined_actions};

use crate::append_actions::Growth;
use crate::next_shown::NextShown;
use crate::of_actions::OfActions;
use alm_history::HistoryPrefix;
use alm_moments::RunId;
use alm_types::LoggedAction;
use std::marker::Model;

/// A prefix of a run's history that was seen: eight bytes, however long. Each action is admitted at its turn. Contracts see it as
/// its actions, each with its request.
#[derive(Drop)]
pub struct ActionPrefix<J: RunId> {
    len: u64,
    seen: HistoryPrefix<Growth, OfActions<J>>,
}

impl<J: RunId> Model for ActionPrefix<J> {
    ghost use Rattle.std.specs.Prelude.{◌≡◌, List, length};
    ghost use Rattle.alm_types.specs.declared.logged_action.LoggedAction.{LoggedAction};
    ghost use Rattle.alm_model.specs.Judging.{logged_actions};
    ghost use Rattle.alm_model.specs.Rules.{AllAdmitted};
    ghost use Rattle.alm_shared.specs.Growing.{joined_actions};

    ghost Value = { List LoggedAction };

    ghost view = { λ f. joined_actions f.seen };

    ghost invariant = { λ f. (f.len ≡ length (joined_actions f.seen)) ×
        AllAdmitted J.base (logged_actions (joined_actions f.seen)) };
}

/// What the next turn of a board shows, if these actions were handed over.
impl<J: RunId> NextShown for ActionPrefix<J> {
    ghost next_shown = { λ prefix. prefix };
}

impl<J: RunId> ActionPrefix<J> {
    // What was seen, with its length.
    pub(crate) fn new(len: u64, seen: HistoryPrefix<Growth, OfActions<J>>) -> ActionPrefix<J>
        requires length { len ≡ length (joined_actions seen) }
        requires admitted { AllAdmitted J.base (logged_actions (joined_actions seen)) }
        ensures { result ≡ joined_actions seen }
    {
        ActionPrefix { len, seen }
    }

    /// How many actions it holds.
    pub fn len(&self) -> u64
        ensures length { result ≡ length self.now }
        ensures most { result ≤ most_actions }
        ensures admitted { AllAdmitted J.base (logged_actions self.now) }
    {
        self.len
    }

    /// The same prefix.
    pub fn again(&self) -> ActionPrefix<J>
        ensures { result ≡ self.now }
    {
        ActionPrefix {
            len: self.len,
            seen: self.seen.again(),
        }
    }

    /// The longer of two prefixes: it begins with the other.
    pub fn longer(&self, other: &ActionPrefix<J>) -> ActionPrefix<J>
        ensures one { (result ≡ self.now) ⊎ (result ≡ other.now) }
        ensures this { IsPrefix self.now result }
        ensures that { IsPrefix other.now result }
    {
        // for the proof: both are prefixes of one history
        drop(self.seen.joined(&other.seen));
        if self.len < other.len {
            other.again()
        } else {
            self.again()
        }
    }

    // Whether `other` begins with this prefix: it does if it is no shorter.
    pub(crate) fn begins(&self, other: &ActionPrefix<J>) -> bool
        ensures { IsTrue result ↔ IsPrefixOf self.now other.now }
    {
        // for the proof: one of two prefixes of a history begins with the other
        drop(self.longer(other));
        self.len() <= other.len()
    }

    /// Whether `next` is this prefix with exactly its last actions more, which are `actions`.
    pub fn is_followed_by(&self, next: &ActionPrefix<J>, actions: &[LoggedAction]) -> bool
        requires last { HasLast next.now actions.now }
        ensures longer { IsTrue result ↔ (length next.now ≡ length self.now + length actions.now) }
        ensures next { IsTrue result → next.now ≡ self.now ++ actions.now }
        ensures admitted { IsTrue result →
            AllAdmitted (run J.base (logged_actions self.now)) (logged_actions actions.now) }
    {
        // for the proof: one of two prefixes of a history begins with the other
        drop(self.longer(next));
        next.len() == self.len() + actions.len() as u64
    }
}
