//! Why plain rows refuse an action.

ghost use Rattle.std.specs.Prelude.{◌≡◌, ◌<◌, slice_get, None, IfOk, OnOk};
ghost use Rattle.alm_model.specs.Accept.{own_refusal, refusal, answer, accept, alarm_refusal, stamp_refusal};
ghost use Rattle.alm_state.specs.Outcome.{unless};
ghost use Rattle.alm_types.specs.declared.refusal.Refusal.TheVariants.{AnnunciatedAgain};
ghost use Rattle.alm_types.specs.Sizes.{most_actions};

use crate::plain_rows::PlainRows;
use crate::roles::may_ask;
use alm_state::row_refusal;
use alm_types::{Action, AlarmId, MOST_ACTIONS, Refusal, Request, Want};

impl PlainRows {
    fn alarm_refusal(&self, id: AlarmId, action: &Action) -> Option<Refusal>
        ensures { result ≡
            alarm_refusal action.now (slice_get self.now.panel.attrs id.0)
            (slice_get self.now.panel.rows id.0) }
    {
        let index = id.0 as usize;
        match (self.attrs.get(index), self.rows.get(index)) {
            (Some(attr), Some(row)) => row_refusal(action, attr, row),
            _ => Some(Refusal::NoSuchAlarm),
        }
    }

    fn own_refusal(&self, action: &Action) -> Option<Refusal>
        ensures { result ≡ own_refusal self.now.panel action.now }
    {
        match *action {
            Action::Clock(moment) => {
                if self.clock < moment {
                    None
                } else {
                    Some(Refusal::ClockBack)
                }
            }
            Action::Value(id, _)
            | Action::Ack(id)
            | Action::Reset(id)
            | Action::Shelve(id, _)
            | Action::Unshelve(id)
            | Action::Oos(id, _)
            | Action::Design(id, _)
            | Action::SetPriority(id, _)
            | Action::SetSetpoint(id, _) => self.alarm_refusal(id, action),
        }
    }

    /// The first reason against an action, whoever asks.
    pub fn admits(&self, action: &Action) -> Result<(), Refusal>
        ensures { result ≡ answer tt (refusal self.now.panel action.now) }
    {
        match self.own_refusal(action) {
            Some(refusal) => Err(refusal),
            None if self.count >= MOST_ACTIONS => Err(Refusal::Exhausted),
            None => Ok(()),
        }
    }

    // Whether the alarm has the stamp of the annunciation that is to be acknowledged.
    fn has_stamp(&self, want: Want) -> bool
        ensures { unless result AnnunciatedAgain ≡ stamp_refusal self.now.panel want }
    {
        match want {
            Want::Do(_) => true,
            Want::AckSeen(id, stamp) => match self.rows.get(id.0 as usize) {
                Some(row) => row.stamp == stamp,
                None => stamp == 0,
            },
        }
    }

    /// The action, or the first reason against the request.
    pub fn check(&self, request: &Request) -> Result<Action, Refusal>
        ensures verdict { result ≡ accept self.now.panel request.now }
        ensures admitted { IfOk result (λ action. refusal self.now.panel action ≡ None) }
        ensures counted { OnOk result (self.now.panel.count < most_actions) }
    {
        let action = request.want.action();
        if !may_ask(request.slot, &action) {
            return Err(Refusal::WrongRole);
        }
        self.admits(&action)?;
        if !self.has_stamp(request.want) {
            return Err(Refusal::AnnunciatedAgain);
        }
        Ok(action)
    }
}
