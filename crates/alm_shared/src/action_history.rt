//! The one writer of a run's history of actions.
ghost use Rattle.std.specs.Prelude.{◌≡◌, ◌≤◌, ◌++◌, [], length, drop, IfSome};
ghost use Rattle.alm_model.specs.Judging.{logged_actions, logged_of};
ghost use Rattle.alm_model.specs.Step.{run};

use crate::action_prefix::ActionPrefix;
use crate::append_actions::{AppendActions, Growth, Rest};
use crate::of_actions::OfActions;
use alm_history::{HistoryWriter, NewHistory};
use alm_model::accepted_in;
use alm_moments::RunId;
use alm_types::Batch;
use std::alloc::Global;
use std::marker::Model;

/// The one writer of a run's history of accepted actions, each with its request. Each is admitted at its turn. Contracts see it as
/// all of them so far.
#[derive(Drop)]
pub struct ActionHistory<J: RunId> {
    alloc: Global,
    len: u64,
    writer: HistoryWriter<Growth, OfActions<J>>,
}

impl<J: RunId> Model for ActionHistory<J> {
    ghost use Rattle.std.specs.Prelude.{◌≡◌, List, length};
    ghost use Rattle.alm_types.specs.declared.logged_action.LoggedAction.{LoggedAction};
    ghost use Rattle.alm_model.specs.Judging.{logged_actions};
    ghost use Rattle.alm_model.specs.Rules.{AllAdmitted};
    ghost use Rattle.alm_shared.specs.Growing.{joined_actions};

    ghost Value = { List LoggedAction };

    ghost view = { λ h. joined_actions h.writer };

    ghost invariant = { λ h. (h.len ≡ length (joined_actions h.writer)) ×
        AllAdmitted J.base (logged_actions (joined_actions h.writer)) };
}

impl<J: RunId> ActionHistory<J> {
    ghost use Rattle.alm_model.specs.Rules.{AllAdmitted};

    // Begins a run's history, under the run's name. `None` if somebody else has begun it, which never comes.
    pub(crate) fn new(alloc: Global, new: NewHistory<Growth>) -> Option<ActionHistory<J>>
        requires { new.seen.book ≡ J.book }
        ensures { IfSome result (λ history. history ≡ []) }
    {
        let writer = new.named::<OfActions<J>>()?;
        Some(ActionHistory {
            alloc,
            len: 0,
            writer,
        })
    }

    // The allocator for what is handed over.
    pub(crate) fn alloc(&self) -> Global {
        self.alloc
    }

    /// How many actions it holds.
    pub fn len(&self) -> u64
        ensures { result ≡ length self.now }
    {
        self.len
    }

    /// The actions so far.
    pub fn prefix(&self) -> ActionPrefix<J>
        ensures { result ≡ self.now }
    {
        ActionPrefix::new(self.len, self.writer.seen())
    }

    // Adds the accepted actions of a batch, without the first `from`. Nobody else adds any, so it is never refused.
    pub(crate) fn extend(&mut self, batch: &Batch, from: u64)
        requires within { from ≤ length (logged_of batch.now.entries) }
        requires admitted { AllAdmitted (run J.base (logged_actions self.old))
            (logged_actions (drop from (logged_of batch.now.entries))) }
        ensures { self.new ≡ self.old ++ drop from (logged_of batch.now.entries) }
    {
        let more = accepted_in(batch) as u64 - from;
        self.writer
            .add::<Rest<'_>, AppendActions>(&Rest { batch, from });
        self.len += more;
    }
}
