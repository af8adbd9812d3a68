//! A measure of many alarms.

ghost use Rattle.std.specs.Prelude.{◌<◌};
ghost use Rattle.alm_speed.specs.Sizes.{IsSized};
ghost use Rattle.alm_types.specs.Sizes.{most_alarms};

use alm_measure::Measure;
use alm_types::{AlarmId, Attr, Kind, Moment, Settings, Table};
use anyhow::{Result, anyhow};
use std::alloc::Global;

pub const ALARMS: u32 = 16_384;

const AREAS: u32 = 64;

/// A measure of 16,384 alarms in 64 areas.
#[derive(Drop)]
pub struct Busy {
    measure: Measure,
    ghost sized: { IsSized measure },
}

/// A table of alarms, each in the area of its number modulo the areas.
fn table(alloc: Global) -> Result<Table> {
    let mut alarms = Vec::with_capacity(alloc, ALARMS as usize)?;
    for number in 0..ALARMS {
        let settings = Settings {
            kind: Kind::High,
            setpoint: 1,
            deadband: 0,
            priority: 1,
            area: (number % AREAS) as u8,
            latching: false,
            max_shelve: 0,
        };
        alarms.push(Attr::new(settings, b"T", b"").map_err(|_| anyhow!("attributes"))?)?;
    }
    Table::new(alarms, AREAS as u8).map_err(|_| anyhow!("table"))
}

impl Busy {
    pub fn new(alloc: Global) -> Result<Self> {
        let measure = Measure::new(alloc, &table(alloc)?)?;
        if measure.alarms() != ALARMS as usize || measure.areas() != AREAS as usize {
            return Err(anyhow!("sizes"));
        }
        Ok(Busy { measure })
    }

    pub fn annunciate(&mut self, number: u32)
        requires { number < most_alarms }
    {
        self.measure.annunciated(AlarmId(number));
    }

    /// A second passes.
    pub fn advance(&mut self) {
        if let Some(next) = Moment::new(self.measure.now().seconds() + 1) {
            self.measure.advance(next);
        }
    }

    pub fn settle(&mut self) {
        self.measure.settle();
    }

    /// The windows of all areas together.
    pub fn windows(&self) -> u64 {
        let mut sum = 0u64;
        for area in 0..AREAS {
            sum = sum.wrapping_add(self.measure.window(area));
        }
        sum
    }
}
