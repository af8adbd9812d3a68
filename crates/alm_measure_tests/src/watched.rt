//! A measure whose calls may be made at any time: those whose conditions aren't met do nothing.

ghost use Rattle.std.specs.Prelude.{◌≤◌, All, sum};

use alm_measure::Measure;
use alm_model::{Ages, Recent};
use alm_types::{AlarmId, Moment, Table};
use std::alloc::{AllocError, Global};

#[derive(Drop)]
pub struct Watched {
    measure: Measure,
}

impl Watched {
    pub fn new(alloc: Global, table: &Table) -> Result<Self, AllocError> {
        Ok(Watched {
            measure: Measure::new(alloc, table)?,
        })
    }

    /// The measure of lists, if they are as long as the table says; `None` if out of memory too.
    pub fn of(
        alloc: Global,
        table: &Table,
        now: Moment,
        ages: Vec<Ages>,
        floods: Vec<bool>,
        moments: Vec<Recent>,
    ) -> Option<Self>
        requires { All (λ ages. sum ages ≤ 600000) ages.items }
    {
        let areas = table.areas() as usize;
        let alarms = table.alarms().len();
        if ages.len() != areas || floods.len() != areas || moments.len() != alarms {
            return None;
        }
        let Ok(measure) = Measure::of(alloc, table, now, &ages, floods, moments) else {
            return None;
        };
        Some(Watched { measure })
    }

    pub fn copy(&self, alloc: Global) -> Result<Self, AllocError> {
        Ok(Watched {
            measure: self.measure.copy(alloc)?,
        })
    }

    pub fn annunciated(&mut self, number: u32) -> bool {
        let may = (number as usize) < self.measure.alarms();
        if may {
            self.measure.annunciated(AlarmId(number));
        }
        may
    }

    pub fn advance(&mut self, now: Moment) -> bool {
        let may = self.measure.now() < now;
        if may {
            self.measure.advance(now);
        }
        may
    }

    pub fn settle(&mut self) {
        self.measure.settle();
    }

    pub fn now(&self) -> Moment {
        self.measure.now()
    }

    pub fn age(&self, area: u32, age: u32) -> Option<u64> {
        if (area as usize) < self.measure.areas() && age < 600 {
            Some(self.measure.age(area, age))
        } else {
            None
        }
    }

    pub fn moments(&self, number: u32) -> &[Moment] {
        self.measure.moments(AlarmId(number))
    }

    /// The window of an area, and whether there is a flood.
    pub fn window(&self, area: u32) -> Option<(u64, bool)> {
        if (area as usize) < self.measure.areas() {
            Some((self.measure.window(area), self.measure.flood(area)))
        } else {
            None
        }
    }

    pub fn chattering(&self, alloc: Global) -> Result<Vec<u32>, AllocError> {
        let mut out = Vec::with_capacity(alloc, self.measure.alarms())?;
        self.measure.chattering(&mut out);
        Ok(out)
    }
}
