//! A plant as plain rows by number, within an action too.

ghost use Rattle.std.specs.Prelude.{◌≡◌, ◌<◌, ◌≤◌, slice_get, length, vec_capacity, Some, map, sum};
ghost use Rattle.alm_model.specs.Lists.{exists, list_of, moments_in};
ghost use Rattle.alm_model.specs.Parts.{age_of};

mod acting;
mod making;
mod refusing;

use crate::ages::Ages;
use crate::list::{List, WHEEL_SLOTS};
use crate::lists::{fill_by_number, fill_in_order};
use crate::order::Order;
use crate::recent::Recent;
use crate::wanted::Wanted;
use alm_state::Row;
use alm_types::{AlarmId, Attr, Moment};
use std::marker::Model;

/// The fields of a plant; what they keep during an action is less than the rules.
#[derive(Drop)]
pub struct PlainRows {
    clock: Moment,
    count: u64,
    next_stamp: u64,
    attrs: Vec<Attr>,
    rows: Vec<Row>,
    ages: Vec<Ages>,
    moments: Vec<Recent>,
    floods: Vec<bool>,
}

impl Model for PlainRows {
    ghost use Rattle.alm_model.specs.Plant.{Condensed};

    ghost Value = { Condensed };

    ghost use Rattle.alm_model.specs.Sound.{IsSound};
    ghost use Rattle.alm_model.specs.Plain.{plain_plant};

    ghost view = { plain_plant };

    ghost invariant = { λ p. IsSound (plain_plant p) };
}

impl PlainRows {
    pub fn row(&self, id: AlarmId) -> Option<Row>
        ensures { result ≡ slice_get self.now.panel.rows id.0 }
    {
        self.rows.get(id.0 as usize).copied()
    }

    pub fn attr(&self, id: AlarmId) -> Option<Attr>
        ensures { result ≡ slice_get self.now.panel.attrs id.0 }
    {
        self.attrs.get(id.0 as usize).copied()
    }

    pub fn now(&self) -> Moment
        ensures { result ≡ self.now.panel.now }
    {
        self.clock
    }

    pub fn count(&self) -> u64
        ensures { result ≡ self.now.panel.count }
    {
        self.count
    }

    pub fn next_stamp(&self) -> u64
        ensures { result ≡ self.now.panel.next_stamp }
    {
        self.next_stamp
    }

    /// How many alarms there are.
    pub fn alarms(&self) -> usize
        ensures { result ≡ length self.now.panel.rows }
    {
        self.rows.len()
    }

    /// How many areas there are.
    pub fn areas(&self) -> usize
        ensures { result ≡ length self.now.floods }
    {
        self.floods.len()
    }

    pub fn window(&self, area: usize) -> (u64, bool)
        requires { area < length self.now.floods }
        ensures window { slice_get (map sum self.now.kept.ages) area ≡ Some result.0 }
        ensures flood { slice_get self.now.floods area ≡ Some result.1 }
    {
        (self.ages[area].window(), self.floods[area])
    }

    pub fn age(&self, area: usize, age: usize) -> u64
        requires area { area < length self.now.floods }
        requires age { age < 600 }
        ensures { result ≡ age_of self.now area age }
    {
        self.ages[area].at(age)
    }

    pub fn moments(&self, id: AlarmId) -> &[Moment]
        ensures { result.now ≡ moments_in (slice_get self.now.kept.moments id.0) }
    {
        match self.moments.get(id.0 as usize) {
            Some(recent) => recent.moments(),
            None => &[],
        }
    }

    pub fn has_list(&self, list: List) -> bool
        ensures { result ≡ exists list self.now }
    {
        match list {
            List::Priority(priority) => 1 <= priority && priority <= 4,
            List::Area(area) => (area as usize) < self.floods.len(),
            List::Wheel(slot) => slot < WHEEL_SLOTS,
            List::Stale | List::Chatter => true,
        }
    }

    pub fn fill(&self, list: List, out: &mut Vec<u32>)
        requires { length self.now.panel.rows ≤ vec_capacity out.old }
        ensures list { out.new.items ≡ list_of list self.now }
        ensures room { vec_capacity out.new ≡ vec_capacity out.old }
    {
        match list {
            List::Priority(_) | List::Area(_) | List::Wheel(_) => {
                fill_in_order(
                    &self.attrs,
                    &self.rows,
                    &Wanted::Listed(list),
                    Order::Stamp,
                    out,
                );
            }
            List::Stale | List::Chatter => {
                fill_by_number(
                    &self.attrs,
                    &self.rows,
                    &self.moments,
                    list,
                    self.clock,
                    out,
                );
            }
        }
    }
}
