//! Counts of the last 600 seconds.

ghost use Rattle.std.specs.Prelude.{◌+◌, ◌^◌, ◌<◌, ◌≤◌, ◌≡◌, replicate, slice_index, sum};
ghost use Rattle.alm_model.specs.Keeping.{ages_after, one_younger};

use alm_model::Ages;
use std::marker::Model;

const SECONDS: usize = 600;

/// How many annunciations came in each of the last 600 seconds, and in all of them.
///
/// The second of age `a` is `a` places after the present one, round the ring. So when a second passes, the present
/// place moves one step back, to that of the oldest second, which is forgotten.
#[derive(Drop)]
pub struct Ring {
    counts: [u64; 600],
    /// The place of the present second.
    present: usize,
    total: u64,
}

impl Model for Ring {
    ghost use Rattle.std.specs.Prelude.{ℕ, List};
    ghost use Rattle.alm_measure.specs.Rings.{rotated, IsAgeRing};

    ghost Value = { List ℕ };

    ghost view = { λ r. rotated r.present r.counts };

    ghost invariant = { λ r. IsAgeRing r.counts r.present r.total };
}

impl Ring {
    /// Seconds without annunciations.
    pub fn new() -> Self
        ensures { result ≡ replicate 600 0 }
    {
        Ring {
            counts: [0; SECONDS],
            present: 0,
            total: 0,
        }
    }

    /// The annunciations of ages.
    pub fn of(ages: &Ages) -> Self
        requires { sum ages.now < 2 ^ 64 }
        ensures { result ≡ ages.now }
    {
        Ring {
            counts: *ages.counts(),
            present: 0,
            total: ages.window(),
        }
    }

    pub fn copy(&self) -> Self
        ensures { result ≡ self.now }
    {
        Ring {
            counts: self.counts,
            present: self.present,
            total: self.total,
        }
    }

    /// How many are of an age.
    pub fn at(&self, age: usize) -> u64
        requires { age < 600 }
        ensures { result ≡ slice_index self.now age }
    {
        let place = self.present + age;
        if place < SECONDS {
            self.counts[place]
        } else {
            self.counts[place - SECONDS]
        }
    }

    /// How many there are of all ages.
    pub fn window(&self) -> u64
        ensures { result ≡ sum self.now }
    {
        self.total
    }

    /// One more annunciation of age 0. If the total is 2^64 - 1, the counts stay.
    pub fn note(&mut self)
        ensures counted { sum self.old + 1 < 2 ^ 64 → self.new ≡ one_younger self.old }
        ensures full { 2 ^ 64 ≤ sum self.old + 1 → self.new ≡ self.old }
    {
        let Some(total) = self.total.checked_add(1) else {
            return;
        };
        self.counts[self.present] += 1;
        self.total = total;
    }

    /// A second passes.
    fn tick(&mut self)
        ensures { self.new ≡ ages_after 1 self.old }
    {
        let oldest = if self.present == 0 {
            SECONDS - 1
        } else {
            self.present - 1
        };
        self.total -= self.counts[oldest];
        self.counts[oldest] = 0;
        self.present = oldest;
    }

    /// Some seconds pass. After 600 none of the counted ones is left, so no more are stepped over.
    pub fn pass(&mut self, seconds: u64)
        ensures { self.new ≡ ages_after seconds self.old }
    {
        if self.total == 0 {
            return;
        }
        for _second in 0..seconds.min(SECONDS as u64) {
            self.tick();
        }
    }
}
