//! A plant, and a measure next to it.

use crate::told;
use crate::watched::Watched;
use alm_common_tests::slot_of;
use alm_model::{Alarms, List};
use alm_state::Core;
use alm_types::{Action, AlarmId, Request, Table, Want};
use std::alloc::{AllocError, Global};
use std::test::Fail;

/// A plant, and a measure of what is done to it.
#[derive(Drop)]
pub struct Beside<P: Alarms + Drop> {
    pub plant: P,
    pub measure: Watched,
}

/// The slot that may ask for an action.
fn number_of(want: &Action) -> u8 {
    match want {
        Action::Clock(_) => 17,
        Action::Value(_, _) | Action::Design(_, _) => 16,
        _ => 0,
    }
}

impl<P: Alarms + Drop> Beside<P> {
    pub fn new(alloc: Global, table: &Table) -> Result<Self, AllocError> {
        Ok(Beside {
            plant: P::new(alloc, table)?,
            measure: Watched::new(alloc, table)?,
        })
    }

    /// Continues with another measure.
    pub fn go_on_with(&mut self, measure: Watched) {
        self.measure = measure;
    }

    /// A measure that is made of what the plant reports.
    pub fn made(&self, alloc: Global, table: &Table) -> Option<Watched> {
        let ages = told::ages(alloc, &self.plant, 3).ok()?;
        let floods = told::floods(alloc, &self.plant, 3).ok()?;
        let moments = told::moments(alloc, &self.plant, 6).ok()?;
        Watched::of(alloc, table, self.plant.now(), ages, floods, moments)
    }

    /// Whether an alarm was annunciated with a stamp or a later one.
    fn is_annunciated_since(&self, number: u32, stamp: u64) -> bool {
        match self.plant.state(AlarmId(number)) {
            Some(row) => row.core != Core::Normal && row.stamp >= stamp,
            None => false,
        }
    }

    /// Does an action and measures it, if it is accepted.
    pub fn act(&mut self, want: Action) -> Result<bool, Fail> {
        let slot = slot_of(number_of(&want))?;
        let next = self.plant.next_stamp();
        let Ok(action) = self.plant.check(&Request {
            slot,
            want: Want::Do(want),
        })
        else {
            return Ok(false);
        };
        self.plant.apply(&action);
        if let Action::Clock(moment) = action {
            self.measure.advance(moment);
        }
        for number in 0..6 {
            if self.is_annunciated_since(number, next) {
                self.measure.annunciated(number);
            }
        }
        self.measure.settle();
        Ok(true)
    }

    /// Whether the ages, the window and the flag of an area are the plant's.
    fn is_area_same(&self, area: u32) -> bool {
        if !self.plant.has_list(List::Area(area)) {
            return false;
        }
        let mut same = self.measure.window(area) == Some(self.plant.window(area));
        for age in 0..600 {
            same = same && self.measure.age(area, age) == Some(self.plant.age(area, age));
        }
        same
    }

    /// The alarms of the plant that chatter.
    fn chattering(&self, alloc: Global) -> Result<Vec<u32>, AllocError> {
        let mut out = Vec::with_capacity(alloc, self.plant.alarms())?;
        self.plant.fill(List::Chatter, &mut out);
        Ok(out)
    }

    /// Whether all that is measured is the plant's.
    pub fn is_same(&self, alloc: Global) -> Result<bool, AllocError> {
        let mut same = self.measure.now() == self.plant.now();
        for area in 0..3 {
            same = same && self.is_area_same(area);
        }
        for number in 0..7 {
            same = same && self.measure.moments(number) == self.plant.moments(AlarmId(number));
        }
        let chattering = self.measure.chattering(alloc)?;
        Ok(same && chattering.as_slice() == self.chattering(alloc)?.as_slice())
    }
}
