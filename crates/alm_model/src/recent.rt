//! The last moments of an alarm.

ghost use Rattle.std.specs.Prelude.{ℕ, ◌+◌, ◌≤◌, [], length, replicate, ◌≡◌, IfOk, nat_lt, count_by};
ghost use Rattle.alm_model.specs.Keeping.{recent};
ghost use Rattle.alm_model.specs.Lists.{is_old, is_frequent};
ghost use Rattle.alm_model.specs.Measured.{measure_of};

use crate::list::List;
use alm_types::Moment;
use std::alloc::{AllocError, Global};
use std::marker::Model;

/// The last three moments of an alarm, the newest first.
#[derive(Drop)]
pub struct Recent {
    kept: [Moment; 3],
    count: usize,
}

impl Model for Recent {
    ghost use Rattle.std.specs.Prelude.{ℕ, List, take, ◌≤◌};

    ghost Value = { List ℕ };

    ghost view = { λ r. take r.count r.kept };

    ghost invariant = { λ r. r.count ≤ 3 };
}

/// Whether a moment is within the last minute.
fn is_near(moment: Moment, now: Moment) -> bool
    ensures { result ≡ nat_lt now (moment + 60) }
{
    now.seconds() < moment.seconds() + 60
}

/// How many moments are within the last minute.
#[tactic(auto, using(std::proofs::lemmas::List::Sums::count_by_more_yes, std::proofs::lemmas::List::Sums::count_by_more_no))]
fn count_near(moments: &[Moment], now: Moment) -> usize
    ensures { result ≡ count_by (λ m. nat_lt now (m + 60)) moments.now }
{
    let mut count = 0;
    for moment in moments {
        if is_near(*moment, now) {
            count += 1;
        }
    }
    count
}

impl Recent {
    pub fn new() -> Self
        ensures { result ≡ [] }
    {
        Recent {
            kept: [Moment::start(); 3],
            count: 0,
        }
    }

    /// One more moment, before the others.
    pub fn note(&mut self, moment: Moment)
        ensures { self.new ≡ recent moment self.old }
    {
        let kept = [moment, self.kept[0], self.kept[1]];
        self.kept = kept;
        if self.count < 3 {
            self.count += 1;
        }
    }

    /// Moments, the newest first.
    pub fn of(moments: &[Moment]) -> Self
        requires { length moments.now ≤ 3 }
        ensures { result ≡ moments.now }
    {
        let mut kept = [Moment::start(); 3];
        let count = moments.len();
        kept[..count].copy_from_slice(moments);
        Recent { kept, count }
    }

    pub fn moments(&self) -> &[Moment]
        ensures { result.now ≡ self.now }
    {
        &self.kept[..self.count]
    }

    fn copy(&self) -> Self
        ensures { result ≡ self.now }
    {
        Recent {
            kept: self.kept,
            count: self.count,
        }
    }

    /// Whether the last annunciation was a day ago or earlier.
    fn is_old(&self, now: Moment) -> bool
        ensures { result ≡ is_old now self.now }
    {
        self.count > 0 && self.kept[0].seconds() + 86_400 <= now.seconds()
    }

    /// Whether three annunciations came within the last minute.
    fn is_frequent(&self, now: Moment) -> bool
        ensures { result ≡ is_frequent now self.now }
    {
        count_near(self.moments(), now) >= 3
    }

    /// Whether the measure of a list holds of an alarm's moments.
    pub fn passes(&self, list: List, now: Moment) -> bool
        ensures { result ≡ measure_of list now self.now }
    {
        match list {
            List::Stale => self.is_old(now),
            List::Chatter => self.is_frequent(now),
            List::Priority(_) | List::Area(_) | List::Wheel(_) => true,
        }
    }
}

/// The moments of alarms without annunciations.
pub fn no_moments(alloc: Global, alarms: usize) -> Result<Vec<Recent>, AllocError>
    ensures { IfOk result (λ moments. moments.items ≡ replicate alarms []) }
{
    let mut moments = Vec::with_capacity(alloc, alarms)?;
    for _alarm in 0..alarms {
        moments.push(Recent::new())?;
    }
    Ok(moments)
}

/// The same moments of each alarm.
pub fn copy_moments(alloc: Global, alarms: &[Recent]) -> Result<Vec<Recent>, AllocError>
    ensures { IfOk result (λ moments. moments.items ≡ alarms.now) }
{
    let mut copied = Vec::with_capacity(alloc, alarms.len())?;
    for moments in alarms {
        copied.push(moments.copy())?;
    }
    Ok(copied)
}
