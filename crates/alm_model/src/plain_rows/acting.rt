//! What an action does to plain rows.

ghost use Rattle.std.specs.Prelude.{◌≡◌, ◌<◌, ◌+◌, ◌*◌, ◌^◌, ◌≤◌, slice_get, length, None, All, fold, vec_capacity, vec_len};
ghost use Rattle.alm_model.specs.Step.{step, settle, later, with_effect, with_outcome, touch, with_one_more, unshelve, with_attributes};
ghost use Rattle.alm_model.specs.Accept.{own_refusal, refusal, alarm_refusal};
ghost use Rattle.alm_state.specs.Outcome.{outcome, attr_after};
ghost use Rattle.alm_model.specs.Lists.{due};
ghost use Rattle.alm_model.specs.Rules.{IsTimely};
ghost use Rattle.alm_model.specs.Keeping.{in_brief};
ghost use Rattle.alm_types.specs.Sizes.{most_actions, most_alarms};

use crate::ages::advance_all;
use crate::floods::settle_all;
use crate::lists::fill_in_order;
use crate::order::Order;
use crate::plain_rows::PlainRows;
use crate::wanted::Wanted;
use alm_state::{Outcome, attr_after, outcome_of};
use alm_types::{Action, AlarmId, Moment};

impl PlainRows {
    /// The alarm's row becomes another.
    fn put(&mut self, index: usize, outcome: Outcome)
        requires here { index < length self.old.panel.rows }
        requires stamps { self.old.panel.next_stamp < 1 + most_alarms * self.old.panel.count }
        ensures rows { length self.new.panel.rows ≡ length self.old.panel.rows }
        ensures plant { self.new ≡ with_outcome in_brief self.old index outcome }
    {
        match outcome {
            Outcome::Changed(row) => {
                self.rows[index] = row;
            }
            Outcome::Annunciated(row) => {
                self.rows[index] = row;
                self.next_stamp += 1;
                let area = self.attrs[index].area as usize;
                self.ages[area].note();
                self.moments[index].note(self.clock);
            }
            Outcome::Shelved(row) => {
                self.rows[index] = row;
                self.next_stamp += 1;
            }
        }
    }

    /// What an action does to the alarm that it names.
    fn touch(&mut self, id: AlarmId, action: &Action)
        requires here { alarm_refusal action.now (slice_get self.old.panel.attrs id.0)
            (slice_get self.old.panel.rows id.0) ≡ None }
        requires stamps { self.old.panel.next_stamp < 1 + most_alarms * self.old.panel.count }
        ensures rows { length self.new.panel.rows ≡ length self.old.panel.rows }
        ensures plant { self.new ≡
            touch in_brief self.old id.0
            (outcome self.old.panel.now self.old.panel.next_stamp action.now) }
    {
        let index = id.0 as usize;
        let attr = self.attrs[index];
        let row = self.rows[index];
        let next = outcome_of(self.clock, self.next_stamp, action, &attr, &row);
        self.put(index, next);
    }

    /// The alarm has the attributes that an action gives it; its row and its stamp stay.
    fn configure(&mut self, id: AlarmId, action: &Action)
        requires here { alarm_refusal action.now (slice_get self.old.panel.attrs id.0)
            (slice_get self.old.panel.rows id.0) ≡ None }
        ensures plant { self.new ≡ with_attributes self.old id.0 (attr_after action.now) }
    {
        let index = id.0 as usize;
        let attr = attr_after(action, &self.attrs[index], &self.rows[index]);
        self.attrs[index] = attr;
    }

    /// The flood flags after an action.
    fn settle(&mut self)
        ensures { self.new ≡ settle in_brief self.old }
    {
        settle_all(&mut self.floods, &self.ages);
    }

    /// The shelvings that have ended by a moment, in order.
    fn list_due(&self, moment: Moment, out: &mut Vec<u32>)
        requires { length self.now.panel.rows ≤ vec_capacity out.old }
        ensures due { out.new.items ≡ due moment self.now.panel }
        ensures each { All (λ i. i < length self.now.panel.rows) out.new.items }
        ensures len { vec_len out.new ≤ most_alarms }
        ensures room { vec_capacity out.new ≡ vec_capacity out.old }
    {
        fill_in_order(
            &self.attrs,
            &self.rows,
            &Wanted::Due(moment),
            Order::Deadline,
            out,
        );
    }

    /// The clock moves.
    fn move_clock(&mut self, moment: Moment)
        requires { self.old.panel.now < moment }
        ensures plant { self.new ≡ later in_brief moment self.old }
        ensures limit { moment < 2 ^ 40 }
    {
        let seconds = moment.seconds() - self.clock.seconds();
        advance_all(&mut self.ages, seconds);
        self.clock = moment;
    }

    /// The shelving of an alarm ends.
    fn unshelve(&mut self, number: u32)
        requires here { number < length self.old.panel.rows }
        requires stamps { self.old.panel.next_stamp < 1 + most_alarms * self.old.panel.count }
        ensures plant { self.new ≡ unshelve in_brief self.old number }
        ensures stamps { self.new.panel.next_stamp ≤ self.old.panel.next_stamp + 1 }
        ensures count { self.new.panel.count ≡ self.old.panel.count }
        ensures rows { length self.new.panel.rows ≡ length self.old.panel.rows }
    {
        let index = number as usize;
        let row = self.rows[index];
        let next = row.unshelved(self.next_stamp);
        self.put(index, next);
    }

    /// The shelvings of alarms end, one after the other.
    fn unshelve_all(&mut self, numbers: &[u32])
        requires here { All (λ i. i < length self.old.panel.rows) numbers.now }
        requires stamps { self.old.panel.next_stamp + length numbers.now ≤
            1 + most_alarms * self.old.panel.count }
        ensures rows { length self.new.panel.rows ≡ length self.old.panel.rows }
        ensures plant { self.new ≡ fold (unshelve in_brief) self.old numbers.now }
    {
        for number in numbers {
            self.unshelve(*number);
        }
    }

    /// Counts an action.
    fn count_action(&mut self)
        requires { self.old.panel.count < most_actions }
        ensures plant { self.new ≡ with_one_more self.old }
        ensures stamps { self.new.panel.next_stamp + most_alarms ≤
            1 + most_alarms * self.new.panel.count }
    {
        self.count += 1;
    }

    /// Does an action, before the floods are settled.
    fn act(&mut self, action: &Action, working: &mut Vec<u32>)
        requires admitted { own_refusal self.old.panel action.now ≡ None }
        requires stamps { self.old.panel.next_stamp + most_alarms ≤
            1 + most_alarms * self.old.panel.count }
        requires room { length self.old.panel.rows ≤ vec_capacity working.old }
        ensures plant { self.new ≡ with_effect in_brief self.old action.now }
        ensures rows { length self.new.panel.rows ≡ length self.old.panel.rows }
        ensures room { vec_capacity working.new ≡ vec_capacity working.old }
        ensures timely { IsTimely action.now }
    {
        match *action {
            Action::Clock(moment) => {
                self.list_due(moment, working);
                self.move_clock(moment);
                self.unshelve_all(working);
            }
            Action::Value(id, _)
            | Action::Ack(id)
            | Action::Reset(id)
            | Action::Shelve(id, _)
            | Action::Unshelve(id)
            | Action::Oos(id, _)
            | Action::Design(id, _) => self.touch(id, action),
            Action::SetPriority(id, _) | Action::SetSetpoint(id, _) => self.configure(id, action),
        }
    }

    /// Does an action.
    pub fn apply(&mut self, action: &Action, working: &mut Vec<u32>)
        requires admitted { refusal self.old.panel action.now ≡ None }
        requires room { length self.old.panel.rows ≤ vec_capacity working.old }
        ensures plant { self.new ≡ step self.old action.now }
        ensures rows { length self.new.panel.rows ≡ length self.old.panel.rows }
        ensures room { vec_capacity working.new ≡ vec_capacity working.old }
        ensures timely { IsTimely action.now }
    {
        self.count_action();
        self.act(action, working);
        self.settle();
    }
}
