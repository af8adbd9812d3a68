//! The plant by linked lists, within an action too.

ghost use Rattle.std.specs.Prelude.{◌≡◌, ◌<◌, ◌≤◌, ◌+◌, ◌*◌, ◌^◌, true, IsTrue, None, Some, IfOk, OnOk, length, slice_get, map, sum, All, fold, vec_capacity};
ghost use Rattle.alm_model.specs.Accept.{alarm_refusal, own_refusal, refusal, answer, accept, stamp_refusal};
ghost use Rattle.alm_model.specs.Keeping.{in_brief};
ghost use Rattle.alm_model.specs.Step.{with_outcome, touch, settle, unshelve, later, with_one_more, with_attributes, step};
ghost use Rattle.alm_state.specs.Outcome.{outcome, attr_after, unless};
ghost use Rattle.alm_types.specs.declared.refusal.Refusal.TheVariants.{AnnunciatedAgain};
ghost use Rattle.alm_model.specs.Lists.{due, exists, list_of, moments_in};
ghost use Rattle.alm_model.specs.declared.list.List.TheVariants.{Priority, Area, Wheel, Stale, Chatter};
ghost use Rattle.alm_model.specs.Measured.{measured_by};
ghost use Rattle.alm_model.specs.Parts.{plant_of, age_of};
ghost use Rattle.alm_lists.specs.Orders.{IsSortedFilter};
ghost use Rattle.alm_model.specs.New.{new_plant};
ghost use Rattle.alm_model.specs.Rules.{KeepsRules, IsTimely};
ghost use Rattle.alm_plant.specs.Filing.{AreAhead, AreDistinct, stamp_in};
ghost use Rattle.alm_plant.specs.Linking.{IsMovedAt, AreSuited, AreSettled, is_annunciation};
ghost use Rattle.alm_model.specs.Lists.{wheel_slots};
ghost use Rattle.alm_types.specs.Sizes.{most_actions, most_alarms};

use crate::nodes::Nodes;
use alm_links::ListNodes;
use alm_measure::Measure;
use alm_model::{AlarmsByNumber, List, PlantParts, WHEEL_SLOTS, fill_by_number, may_ask};
use alm_state::{Outcome, Row, attr_after, outcome_of, row_refusal};
use alm_types::{Action, AlarmId, Attr, MOST_ACTIONS, Moment, Refusal, Request, Table, Want};
use std::alloc::{AllocError, Global};
use std::marker::Model;

/// The fields of a plant; what they keep during an action is less than the rules.
#[derive(Drop)]
pub struct Linked {
    count: u64,
    next_stamp: u64,
    nodes: Nodes,
    measure: Measure,
}

impl Model for Linked {
    ghost use Rattle.alm_model.specs.Plant.{Condensed};

    ghost Value = { Condensed };

    ghost use Rattle.alm_plant.specs.Linking.{plant_in, IsLinkedIn};

    ghost view = { plant_in };

    ghost invariant = { IsLinkedIn };
}

impl Linked {
    /// The new plant of a table.
    pub fn new(alloc: Global, table: &Table) -> Result<Self, AllocError>
        ensures plant { IfOk result (λ p. p ≡ new_plant table.now) }
        ensures rules { IfOk result KeepsRules }
    {
        let alarms = table.alarms();
        Ok(Linked {
            count: 0,
            next_stamp: 1,
            nodes: Nodes::new(alloc, alarms.to_vec(alloc)?, u32::from(table.areas()))?,
            measure: Measure::new(alloc, table)?,
        })
    }

    /// The plant of its parts, whose alarms are put in an order.
    pub fn build(alloc: Global, parts: PlantParts, order: &[u32]) -> Result<Self, AllocError>
        requires rules { KeepsRules (plant_of parts) }
        requires count { parts.count ≤ most_actions }
        requires order { IsSortedFilter (stamp_in parts.rows.items) (λ i. true)
            (length parts.rows.items) order.now }
        ensures { IfOk result (λ p. p ≡ plant_of parts) }
    {
        let PlantParts {
            clock,
            count,
            next_stamp,
            attrs,
            rows,
            ages,
            moments,
            floods,
        } = parts;
        let areas = floods.len() as u32;
        let measure = Measure::of_alarms(alloc, &attrs, clock, &ages, floods, moments)?;
        let nodes = Nodes::build(alloc, attrs, &rows, areas, order)?;
        Ok(Linked {
            count,
            next_stamp,
            nodes,
            measure,
        })
    }

    /// The same plant.
    pub fn copy(&self, alloc: Global) -> Result<Self, AllocError>
        ensures { IfOk result (λ p. p ≡ self.now) }
    {
        Ok(Linked {
            count: self.count,
            next_stamp: self.next_stamp,
            nodes: self.nodes.copy(alloc)?,
            measure: self.measure.copy(alloc)?,
        })
    }

    pub fn row(&self, id: AlarmId) -> Option<Row>
        ensures { result ≡ slice_get self.now.panel.rows id.0 }
    {
        self.nodes.rows().get(id.0 as usize).copied()
    }

    pub fn attr(&self, id: AlarmId) -> Option<Attr>
        ensures { result ≡ slice_get self.now.panel.attrs id.0 }
    {
        self.nodes.attrs().get(id.0 as usize).copied()
    }

    pub fn now(&self) -> Moment
        ensures { result ≡ self.now.panel.now }
    {
        self.measure.now()
    }

    pub fn count(&self) -> u64
        ensures { result ≡ self.now.panel.count }
    {
        self.count
    }

    pub fn next_stamp(&self) -> u64
        ensures { result ≡ self.now.panel.next_stamp }
    {
        self.next_stamp
    }

    pub fn window(&self, area: u32) -> (u64, bool)
        requires { area < length self.now.floods }
        ensures window { slice_get (map sum self.now.kept.ages) area ≡ Some result.0 }
        ensures flood { slice_get self.now.floods area ≡ Some result.1 }
    {
        (self.measure.window(area), self.measure.flood(area))
    }

    pub fn age(&self, area: u32, age: u32) -> u64
        requires area { area < length self.now.floods }
        requires age { age < 600 }
        ensures { result ≡ age_of self.now area age }
    {
        self.measure.age(area, age)
    }

    pub fn moments(&self, id: AlarmId) -> &[Moment]
        ensures { result.now ≡ moments_in (slice_get self.now.kept.moments id.0) }
    {
        self.measure.moments(id)
    }

    pub fn has_list(&self, list: List) -> bool
        ensures { result ≡ exists list self.now }
    {
        match list {
            List::Priority(priority) => 1 <= priority && priority <= 4,
            List::Area(area) => (area as usize) < self.measure.areas(),
            List::Wheel(slot) => slot < WHEEL_SLOTS,
            List::Stale | List::Chatter => true,
        }
    }

    pub fn priority_list(&self, priority: u32) -> ListNodes<'_>
        requires priority { (1 ≤ priority) × (priority ≤ 4) }
        ensures { result ≡ list_of (Priority priority) self.now }
    {
        self.nodes.priority_list(priority)
    }

    pub fn area_list(&self, area: u32) -> ListNodes<'_>
        requires area { area < length self.now.floods }
        ensures { result ≡ list_of (Area area) self.now }
    {
        self.nodes.area_list(area)
    }

    pub fn wheel_list(&self, slot: u32) -> ListNodes<'_>
        requires slot { slot < wheel_slots }
        ensures { result ≡ list_of (Wheel slot) self.now }
    {
        self.nodes.slot_list(slot)
    }

    pub fn stale(&self) -> AlarmsByNumber<'_>
        ensures { result ≡ list_of Stale self.now }
    {
        self.by_number(List::Stale)
    }

    pub fn chattering(&self) -> AlarmsByNumber<'_>
        ensures { result ≡ list_of Chatter self.now }
    {
        self.by_number(List::Chatter)
    }

    fn by_number(&self, list: List) -> AlarmsByNumber<'_>
        ensures { result ≡
            measured_by list self.now.panel.now self.now.panel.attrs self.now.panel.rows
            self.now.kept.moments }
    {
        AlarmsByNumber::new(
            self.nodes.attrs(),
            self.nodes.rows(),
            self.measure.recents(),
            list,
            self.measure.now(),
        )
    }

    pub fn fill(&self, list: List, out: &mut Vec<u32>)
        requires exists { IsTrue (exists list self.now) }
        requires room { length self.now.panel.rows ≤ vec_capacity out.old }
        ensures list { out.new.items ≡ list_of list self.now }
        ensures room { vec_capacity out.new ≡ vec_capacity out.old }
    {
        match list {
            List::Priority(priority) => self.nodes.list_priority(priority, out),
            List::Area(area) => self.nodes.list_area(area, out),
            List::Wheel(slot) => self.nodes.list_slot(slot, out),
            List::Stale | List::Chatter => {
                fill_by_number(
                    self.nodes.attrs(),
                    self.nodes.rows(),
                    self.measure.recents(),
                    list,
                    self.measure.now(),
                    out,
                );
            }
        }
    }

    /// How many areas there are.
    pub fn areas(&self) -> usize
        ensures { result ≡ length self.now.floods }
    {
        self.measure.areas()
    }

    /// How many alarms there are.
    pub fn alarms(&self) -> usize
        ensures { result ≡ length self.now.panel.rows }
    {
        self.nodes.alarms()
    }

    fn alarm_refusal(&self, id: AlarmId, action: &Action) -> Option<Refusal>
        ensures { result ≡
            alarm_refusal action.now (slice_get self.now.panel.attrs id.0)
            (slice_get self.now.panel.rows id.0) }
    {
        let index = id.0 as usize;
        if index < self.nodes.alarms() {
            row_refusal(action, self.nodes.attr(index), self.nodes.row(index))
        } else {
            Some(Refusal::NoSuchAlarm)
        }
    }

    fn own_refusal(&self, action: &Action) -> Option<Refusal>
        ensures { result ≡ own_refusal self.now.panel action.now }
    {
        match *action {
            Action::Clock(moment) => {
                if self.measure.now() < moment {
                    None
                } else {
                    Some(Refusal::ClockBack)
                }
            }
            Action::Value(id, _)
            | Action::Ack(id)
            | Action::Reset(id)
            | Action::Shelve(id, _)
            | Action::Unshelve(id)
            | Action::Oos(id, _)
            | Action::Design(id, _)
            | Action::SetPriority(id, _)
            | Action::SetSetpoint(id, _) => self.alarm_refusal(id, action),
        }
    }

    /// The first reason against an action, whoever asks.
    pub fn admits(&self, action: &Action) -> Result<(), Refusal>
        ensures { result ≡ answer tt (refusal self.now.panel action.now) }
    {
        match self.own_refusal(action) {
            Some(refusal) => Err(refusal),
            None if self.count >= MOST_ACTIONS => Err(Refusal::Exhausted),
            None => Ok(()),
        }
    }

    // Whether the alarm has the stamp of the annunciation that is to be acknowledged.
    fn has_stamp(&self, want: Want) -> bool
        ensures { unless result AnnunciatedAgain ≡ stamp_refusal self.now.panel want }
    {
        match want {
            Want::Do(_) => true,
            Want::AckSeen(id, stamp) => match self.nodes.rows().get(id.0 as usize) {
                Some(row) => row.stamp == stamp,
                None => stamp == 0,
            },
        }
    }

    /// The action, or the first reason against the request.
    pub fn check(&self, request: &Request) -> Result<Action, Refusal>
        ensures verdict { result ≡ accept self.now.panel request.now }
        ensures admitted { IfOk result (λ action. refusal self.now.panel action ≡ None) }
        ensures counted { OnOk result (self.now.panel.count < most_actions) }
    {
        let action = request.want.action();
        if !may_ask(request.slot, &action) {
            return Err(Refusal::WrongRole);
        }
        self.admits(&action)?;
        if !self.has_stamp(request.want) {
            return Err(Refusal::AnnunciatedAgain);
        }
        Ok(action)
    }

    /// The alarm's row becomes another; whether it is annunciated.
    #[inline(always)]
    fn put(&mut self, index: u32, outcome: Outcome) -> bool
        requires here { index < length self.old.panel.rows }
        requires stamps { self.old.panel.next_stamp < 1 + most_alarms * self.old.panel.count }
        requires moved { IsMovedAt self.old.panel.next_stamp (slice_get self.old.panel.rows index)
            outcome }
        ensures rows { length self.new.panel.rows ≡ length self.old.panel.rows }
        ensures plant { self.new ≡ with_outcome in_brief self.old index outcome }
        ensures called { result ≡ is_annunciation outcome }
    {
        match outcome {
            Outcome::Changed(row) => {
                self.nodes.put(index, row);
                false
            }
            Outcome::Annunciated(row) => {
                self.nodes.put(index, row);
                self.next_stamp += 1;
                self.measure.annunciated(AlarmId(index));
                true
            }
            Outcome::Shelved(row) => {
                self.nodes.put(index, row);
                self.next_stamp += 1;
                false
            }
        }
    }

    /// What an action does to the alarm that it names, and the flood of its area.
    #[inline(always)]
    fn touch(&mut self, id: AlarmId, action: &Action)
        requires here { alarm_refusal action.now (slice_get self.old.panel.attrs id.0)
            (slice_get self.old.panel.rows id.0) ≡ None }
        requires stamps { self.old.panel.next_stamp < 1 + most_alarms * self.old.panel.count }
        requires suits { AreSuited self.old.panel }
        requires settled { AreSettled self.old }
        ensures rows { length self.new.panel.rows ≡ length self.old.panel.rows }
        ensures plant { self.new ≡
            settle in_brief
            (touch in_brief self.old id.0
            (outcome self.old.panel.now self.old.panel.next_stamp action.now)) }
    {
        let index = id.0 as usize;
        let next = outcome_of(
            self.measure.now(),
            self.next_stamp,
            action,
            self.nodes.attr(index),
            self.nodes.row(index),
        );
        if self.put(id.0, next) {
            let area = self.nodes.attr(index).area;
            self.measure.settle_area(u32::from(area));
        }
    }

    /// The alarm has the attributes that an action gives it; its row and its stamp stay.
    #[inline(never)]
    fn configure(&mut self, id: AlarmId, action: &Action)
        requires here { alarm_refusal action.now (slice_get self.old.panel.attrs id.0)
            (slice_get self.old.panel.rows id.0) ≡ None }
        requires distinct { AreDistinct self.old.panel.rows }
        requires settled { AreSettled self.old }
        ensures rows { length self.new.panel.rows ≡ length self.old.panel.rows }
        ensures plant { self.new ≡
            settle in_brief (with_attributes self.old id.0 (attr_after action.now)) }
    {
        let index = id.0 as usize;
        let attr = attr_after(action, self.nodes.attr(index), self.nodes.row(index));
        self.nodes.set_attr(id.0, attr);
    }

    /// The flood flags after an action.
    fn settle(&mut self)
        ensures { self.new ≡ settle in_brief self.old }
    {
        self.measure.settle();
    }

    /// The clock moves.
    fn move_clock(&mut self, moment: Moment)
        requires { self.old.panel.now < moment }
        ensures plant { self.new ≡ later in_brief moment self.old }
        ensures limit { moment < 2 ^ 40 }
    {
        self.measure.advance(moment);
    }

    /// The shelving of an alarm ends.
    #[inline(never)]
    fn unshelve(&mut self, number: u32)
        requires here { number < length self.old.panel.rows }
        requires stamps { self.old.panel.next_stamp < 1 + most_alarms * self.old.panel.count }
        ensures plant { self.new ≡ unshelve in_brief self.old number }
        ensures stamps { self.new.panel.next_stamp ≤ self.old.panel.next_stamp + 1 }
        ensures count { self.new.panel.count ≡ self.old.panel.count }
        ensures rows { length self.new.panel.rows ≡ length self.old.panel.rows }
    {
        let next = self.nodes.row(number as usize).unshelved(self.next_stamp);
        self.put(number, next);
    }

    /// The shelvings of alarms end, one after the other.
    fn unshelve_all(&mut self, numbers: &[u32])
        requires here { All (λ i. i < length self.old.panel.rows) numbers.now }
        requires stamps { self.old.panel.next_stamp + length numbers.now ≤
            1 + most_alarms * self.old.panel.count }
        ensures rows { length self.new.panel.rows ≡ length self.old.panel.rows }
        ensures plant { self.new ≡ fold (unshelve in_brief) self.old numbers.now }
    {
        for number in numbers {
            self.unshelve(*number);
        }
    }

    /// Counts an action.
    fn count_action(&mut self)
        requires { self.old.panel.count < most_actions }
        ensures plant { self.new ≡ with_one_more self.old }
        ensures stamps { self.new.panel.next_stamp + most_alarms ≤
            1 + most_alarms * self.new.panel.count }
    {
        self.count += 1;
    }

    /// The clock moves, and the shelvings end that are due.
    fn run_clock(&mut self, moment: Moment, working: &mut Vec<u32>)
        requires forward { self.old.panel.now < moment }
        requires ahead { AreAhead self.old.panel.now self.old.panel.rows }
        requires stamps { self.old.panel.next_stamp + most_alarms ≤
            1 + most_alarms * self.old.panel.count }
        requires room { length self.old.panel.rows ≤ vec_capacity working.old }
        ensures plant { self.new ≡
            settle in_brief
            (fold (unshelve in_brief) (later in_brief moment self.old)
            (due moment self.old.panel)) }
        ensures rows { length self.new.panel.rows ≡ length self.old.panel.rows }
        ensures room { vec_capacity working.new ≡ vec_capacity working.old }
        ensures limit { moment < 2 ^ 40 }
    {
        let now = self.measure.now();
        self.nodes.due(now.seconds(), moment.seconds(), working);
        self.move_clock(moment);
        self.unshelve_all(working);
        self.settle();
    }

    /// Does an action. It is inlined into each loop over actions: a call costs a seventh of what most of them do.
    #[inline(always)]
    pub fn apply(&mut self, action: &Action, working: &mut Vec<u32>)
        requires rules { KeepsRules self.old }
        requires admitted { refusal self.old.panel action.now ≡ None }
        requires room { length self.old.panel.rows ≤ vec_capacity working.old }
        ensures plant { self.new ≡ step self.old action.now }
        ensures rows { length self.new.panel.rows ≡ length self.old.panel.rows }
        ensures room { vec_capacity working.new ≡ vec_capacity working.old }
        ensures timely { IsTimely action.now }
    {
        self.count_action();
        match *action {
            Action::Clock(moment) => self.run_clock(moment, working),
            Action::Value(id, _)
            | Action::Ack(id)
            | Action::Reset(id)
            | Action::Shelve(id, _)
            | Action::Unshelve(id)
            | Action::Oos(id, _)
            | Action::Design(id, _) => self.touch(id, action),
            Action::SetPriority(id, _) | Action::SetSetpoint(id, _) => self.configure(id, action),
        }
    }
}
