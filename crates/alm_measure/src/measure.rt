//! What is measured of a plant.

ghost use Rattle.std.specs.Prelude.{◌≡◌, ◌+◌, ◌^◌, ◌<◌, ◌≤◌, All, IfOk, Some, length, map, slice_get, slice_index, sum, sum_by, vec_capacity};
ghost use Rattle.alm_model.specs.Keeping.{change};
ghost use Rattle.alm_model.specs.Step.{is_flood};
ghost use Rattle.alm_model.specs.Lists.{moments_in};
ghost use Rattle.alm_model.specs.Parts.{age_in};
ghost use Rattle.alm_measure.specs.Metrics.{after_clock, after_annunciation, chattering_by_moments, new_metrics, settled_by_windows, window_around, windows};
ghost use Rattle.alm_types.specs.Sizes.{most_alarms};

use crate::chatter::fill_chattering;
use crate::exact::exact;
use crate::ring::Ring;
use crate::rings::{copy_rings, new_rings, pass_all, rings_of, settle_all};
use alm_model::{Ages, Recent, copy_moments, is_flood, no_moments};
use alm_types::{AlarmId, Attr, Moment, Table};
use std::alloc::{AllocError, Global};
use std::marker::Model;

/// The windows, floods and last moments of a plant.
#[derive(Drop)]
pub struct Measure {
    clock: Moment,
    /// By alarm.
    areas: Vec<u8>,
    /// By area, as the flood flags.
    rings: Vec<Ring>,
    floods: Vec<bool>,
    /// The last three of each alarm.
    moments: Vec<Recent>,
}

impl Model for Measure {
    ghost use Rattle.alm_measure.specs.Metrics.{Metrics};

    ghost Value = { Metrics };

    ghost use Rattle.alm_measure.specs.Shown.{IsExact, IsSoundMeasure, metrics_in};

    ghost view = { metrics_in };

    ghost invariant = { λ m. IsSoundMeasure (metrics_in m) × IsExact m };
}

/// The area of each alarm.
fn areas_of(alloc: Global, alarms: &[Attr]) -> Result<Vec<u8>, AllocError>
    ensures items { IfOk result (λ areas. areas.items ≡ map (λ a. a.area) alarms.now) }
    ensures room { IfOk result (λ areas. vec_capacity areas ≡ length areas.items) }
{
    exact(alloc, alarms.iter().map(|attr| attr.area).collect(alloc)?)
}

impl Measure {
    /// The measure of a new plant; an error only if out of memory.
    pub fn new(alloc: Global, table: &Table) -> Result<Self, AllocError>
        ensures { IfOk result (λ m. m ≡ new_metrics table.now) }
    {
        let alarms = table.alarms();
        let areas = table.areas();
        Ok(Measure {
            clock: Moment::start(),
            areas: areas_of(alloc, alarms)?,
            rings: new_rings(alloc, areas)?,
            floods: exact(alloc, vec![in alloc; false; areas as usize]?)?,
            moments: exact(alloc, no_moments(alloc, alarms.len())?)?,
        })
    }

    /// The measure at a moment, of ages and flood flags by area and the last moments of each alarm, for all alarms of the table.
    /// An error only if out of memory.
    pub fn of(
        alloc: Global,
        table: &Table,
        now: Moment,
        ages: &[Ages],
        floods: Vec<bool>,
        moments: Vec<Recent>,
    ) -> Result<Self, AllocError>
        requires ages { length ages.now ≡ table.now.areas }
        requires floods { length floods.items ≡ table.now.areas }
        requires moments { length moments.items ≡ length table.now.alarms }
        requires limit { sum_by sum ages.now < 2 ^ 64 }
        ensures { IfOk result
            (λ m. m ≡
            record {
              now = now;
              areas = map (λ a. a.area) table.now.alarms;
              ages = ages.now;
              floods =
                  floods.items;
              moments = moments.items;
            }) }
    {
        Measure::of_alarms(alloc, table.alarms(), now, ages, floods, moments)
    }

    /// The same for alarms without a table.
    pub fn of_alarms(
        alloc: Global,
        alarms: &[Attr],
        now: Moment,
        ages: &[Ages],
        floods: Vec<bool>,
        moments: Vec<Recent>,
    ) -> Result<Self, AllocError>
        requires few { length alarms.now ≤ most_alarms }
        requires areas { All (λ a. a.area < length ages.now) alarms.now }
        requires floods { length floods.items ≡ length ages.now }
        requires moments { length moments.items ≡ length alarms.now }
        requires limit { sum_by sum ages.now < 2 ^ 64 }
        ensures { IfOk result
            (λ m. m ≡
            record {
              now = now;
              areas = map (λ a. a.area) alarms.now;
              ages = ages.now;
              floods =
                  floods.items;
              moments = moments.items;
            }) }
    {
        Ok(Measure {
            clock: now,
            areas: areas_of(alloc, alarms)?,
            rings: rings_of(alloc, ages)?,
            floods: exact(alloc, floods)?,
            moments: exact(alloc, moments)?,
        })
    }

    /// The same measure; an error only if out of memory.
    pub fn copy(&self, alloc: Global) -> Result<Self, AllocError>
        ensures { IfOk result (λ m. m ≡ self.now) }
    {
        Ok(Measure {
            clock: self.clock,
            areas: exact(alloc, self.areas.to_vec(alloc)?)?,
            rings: copy_rings(alloc, &self.rings)?,
            floods: exact(alloc, self.floods.to_vec(alloc)?)?,
            moments: exact(alloc, copy_moments(alloc, &self.moments)?)?,
        })
    }

    /// An alarm of the table is annunciated now: one more in its area, and one more moment of its own.
    ///
    /// A window counts up to 2^64 - 1: if it is full it stays, and the moment is noted all the same.
    pub fn annunciated(&mut self, id: AlarmId)
        requires { id.0 < length self.old.areas }
        ensures counted { window_around id.0 self.old + 1 < 2 ^ 64 →
            self.new ≡ after_annunciation id.0 self.old }
        ensures full { 2 ^ 64 ≤ window_around id.0 self.old + 1 →
            self.new ≡ record (after_annunciation id.0 self.old) { ages = self.old.ages } }
    {
        let alarm = id.0 as usize;
        let area = self.areas[alarm] as usize;
        self.rings[area].note();
        self.moments[alarm].note(self.clock);
    }

    /// The clock moves to a later moment, however far.
    pub fn advance(&mut self, now: Moment)
        requires { self.old.now < now }
        ensures { self.new ≡ after_clock now self.old }
    {
        let seconds = now.seconds() - self.clock.seconds();
        pass_all(&mut self.rings, seconds);
        self.clock = now;
    }

    /// Starts the flood of an area whose window is above 10, and ends it if the window is below 5; between these the flag stays.
    pub fn settle(&mut self)
        ensures { self.new ≡ settled_by_windows self.old }
    {
        settle_all(&mut self.floods, &self.rings);
    }

    /// The same in one area.
    pub fn settle_area(&mut self, area: u32)
        requires { area < length self.old.ages }
        ensures { self.new ≡
            record self.old {
              floods = change self.old.floods area
                  (is_flood (slice_index (windows self.old) area));
            } }
    {
        let area = area as usize;
        self.floods[area] = is_flood(self.rings[area].window(), self.floods[area]);
    }

    /// The clock.
    pub fn now(&self) -> Moment
        ensures { result ≡ self.now.now }
    {
        self.clock
    }

    /// How many alarms there are.
    pub fn alarms(&self) -> usize
        ensures alarms { result ≡ length self.now.areas }
        ensures moments { result ≡ length self.now.moments }
    {
        self.areas.len()
    }

    /// How many areas there are.
    pub fn areas(&self) -> usize
        ensures ages { result ≡ length self.now.ages }
        ensures floods { result ≡ length self.now.floods }
    {
        self.rings.len()
    }

    /// How many annunciations of an area are of an age in seconds.
    pub fn age(&self, area: u32, age: u32) -> u64
        requires area { area < length self.now.ages }
        requires age { age < 600 }
        ensures { result ≡ age_in age (slice_get self.now.ages area) }
    {
        self.rings[area as usize].at(age as usize)
    }

    /// The last three moments of an alarm, the newest first; empty if there is no such alarm.
    pub fn moments(&self, id: AlarmId) -> &[Moment]
        ensures { result.now ≡ moments_in (slice_get self.now.moments id.0) }
    {
        match self.moments.get(id.0 as usize) {
            Some(recent) => recent.moments(),
            None => &[],
        }
    }

    /// The last three moments of each alarm, by number.
    pub fn recents(&self) -> &[Recent]
        ensures { result.now ≡ self.now.moments }
    {
        &self.moments
    }

    /// How many annunciations of an area came within the last 600 seconds.
    pub fn window(&self, area: u32) -> u64
        requires { area < length self.now.ages }
        ensures { slice_get (windows self.now) area ≡ Some result }
    {
        self.rings[area as usize].window()
    }

    /// Whether there is a flood in an area, as of the last time that they were settled.
    pub fn flood(&self, area: u32) -> bool
        requires { area < length self.now.floods }
        ensures { slice_get self.now.floods area ≡ Some result }
    {
        self.floods[area as usize]
    }

    /// The vector then holds the alarms with three annunciations or more within the last minute, by number. It must have room for
    /// all alarms.
    pub fn chattering(&self, out: &mut Vec<u32>)
        requires room { length self.now.areas ≤ vec_capacity out.old }
        ensures list { out.new.items ≡ chattering_by_moments self.now }
        ensures room { vec_capacity out.new ≡ vec_capacity out.old }
    {
        fill_chattering(&self.moments, self.clock, out);
    }
}
