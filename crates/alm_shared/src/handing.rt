//! A shared board accepts batches, to show them at the next turn.
ghost use Rattle.std.specs.Prelude.{◌≡◌, ◌+◌, IfOk, drop, length};
ghost use Rattle.alm_model.specs.Judging.{logged_of};

use crate::action_history::ActionHistory;
use crate::action_prefix::ActionPrefix;
use crate::append_step::AppendStep;
use crate::durable::Durable;
use crate::publisher::Publisher;
use crate::shown_plant::ShownPlant;
use alm_model::Alarms;
use alm_moments::{Moments, RunId};
use alm_types::{Batch, LoggedAction, Verdict};
use std::alloc::{AllocError, Global};

impl<J: RunId, P: Alarms + Drop> Publisher<
    ShownPlant<J, P>,
    AppendStep<J>,
    ActionPrefix<J>,
    ActionHistory<J>,
> {
    ghost use Rattle.std.specs.Prelude.{◌≡◌, ◌++◌, ◌↔◌, OnOk, OnErr, IsTrue, MatchResult};
    ghost use Rattle.alm_model.specs.Judging.{accepted_of, logged_actions, logged_of};
    ghost use Rattle.alm_model.specs.Rules.{AllAdmitted};
    ghost use Rattle.alm_model.specs.Step.{run};
    ghost use Rattle.alm_board.specs.PrefixesOf.{IsPrefixOf};
    ghost use Rattle.alm_moments.specs.Moments.{AreHeld};
    ghost use Rattle.alm_shared.specs.Publishers.{published};
    ghost use Rattle.alm_shared.specs.SharedBoards.{board_shown, board_pending};

    // Whether what is shown is a prefix of what was handed over, and that a prefix of the history, as they always are.
    fn is_ahead(&self) -> bool
        ensures { IsTrue result ↔ (IsPrefixOf (board_shown self.now) self.now.owner ×
            IsPrefixOf self.now.owner self.now.extra) }
    {
        let handed = &self.owner;
        self.shown().told.prefix.begins(handed) && handed.begins(&self.extra.prefix())
    }

    // Adds to the history what is left of a batch.
    fn reach(&mut self, batch: &Batch)
        requires ahead { IsPrefixOf (board_shown self.old) self.old.extra }
        requires admitted { AllAdmitted (run J.base (logged_actions (board_shown self.old)))
            (accepted_of batch.now.entries) }
        requires same { IsPrefixOf (board_pending self.old) (logged_of batch.now.entries) }
        ensures published { published self.new ≡ published self.old }
        ensures handed { self.new.owner ≡ self.old.owner }
        ensures reached { self.new.extra ≡ board_shown self.old ++ logged_of batch.now.entries }
    {
        let from = self.extra.len() - self.shown().told.prefix.len();
        self.extra.extend(batch, from);
    }

    // Hands over the actions by which the history is ahead of what was handed over, in one step.
    fn hand(&mut self, actions: Vec<LoggedAction>, moments: &Moments<J>) -> Result<(), AllocError>
        requires next { self.old.extra ≡ self.old.owner ++ actions.items }
        requires held { AreHeld J.base J.first moments.now (logged_actions self.old.extra) }
        ensures published { published self.new ≡ published self.old }
        ensures reached { self.new.extra ≡ self.old.extra }
        ensures handed { MatchResult result (λ _. self.new.owner ≡ self.old.extra)
            (λ _. self.new.owner ≡ self.old.owner) }
    {
        let handed = self.extra.prefix();
        let told = Durable {
            prefix: handed.again(),
            moments: moments.again(),
        };
        match self.append(AppendStep { actions, told }, handed) {
            Ok(()) => Ok(()),
            Err(_) => Err(AllocError),
        }
    }

    // Hands over what is left of a batch in one step, so that its copies compare prefixes once a batch and not once an action.
    pub(crate) fn hand_over(
        &mut self,
        batch: &Batch,
        moments: &Moments<J>,
    ) -> Result<(), AllocError>
        requires admitted { AllAdmitted (run J.base (logged_actions (board_shown self.old)))
            (accepted_of batch.now.entries) }
        requires same { IsPrefixOf (board_pending self.old) (logged_of batch.now.entries) }
        requires held { AreHeld J.base J.first moments.now
            (logged_actions (board_shown self.old) ++ accepted_of batch.now.entries) }
        ensures published { published self.new ≡ published self.old }
        ensures ok { OnOk result
            (self.new.owner ≡ board_shown self.old ++ logged_of batch.now.entries) }
        ensures clear { OnOk result (self.new.extra ≡ self.new.owner) }
        ensures err { OnErr result (IsPrefixOf (board_pending self.new) (logged_of batch.now.entries)) }
    {
        if !self.is_ahead() {
            return Err(AllocError);
        }
        self.reach(batch);
        let handed = self.owner.len();
        let more = self.extra.len() - handed;
        if more == 0 {
            return Ok(());
        }
        let from = handed - self.shown().told.prefix.len();
        let actions = last_of(self.extra.alloc(), batch, from, more)?;
        self.hand(actions, moments)
    }
}

// The accepted actions of a batch after the first `from` of them: `more` are left.
fn last_of(
    alloc: Global,
    batch: &Batch,
    from: u64,
    more: u64,
) -> Result<Vec<LoggedAction>, AllocError>
    requires more { from + more ≡ length (logged_of batch.now.entries) }
    ensures { IfOk result (λ last. last.items ≡ drop from (logged_of batch.now.entries)) }
{
    let mut last = Vec::with_capacity(alloc, more as usize)?;
    let mut before = from;
    for entry in batch.entries() {
        match entry.verdict {
            Verdict::Accepted(action) => {
                if before == 0 {
                    last.push_reserved(LoggedAction {
                        slot: entry.slot,
                        serial: entry.serial,
                        action,
                    });
                } else {
                    before -= 1;
                }
            }
            Verdict::Refused(_, _) => {}
        }
    }
    Ok(last)
}
