//! The last accepted actions.

ghost use Rattle.std.specs.Prelude.{◌≡◌, ◌≤◌, ◌<◌, Some, slice_get, length, vec_capacity};
ghost use Rattle.alm_events.specs.Events.{most_kept, most_told};

use alm_types::Event;
use std::alloc::{AllocError, Global};
use std::marker::Model;

/// How many events are kept.
pub const MOST_KEPT: usize = 65_536;

/// How many are reported at once, at most.
pub const MOST_TOLD: usize = 256;

/// The last events, oldest first, with room for [`MOST_KEPT`].
#[derive(Drop)]
pub struct RecentEvents {
    events: Vec<Event>,
    // The place of the oldest: others are overwritten from here on, once all places are taken.
    oldest: usize,
}

impl Model for RecentEvents {
    ghost use Rattle.std.specs.Prelude.{◌≡◌, ◌≤◌, ◌<◌, ◌⊎◌, List, length, vec_capacity};
    ghost use Rattle.alm_types.specs.declared.event.Event.{Event};
    ghost use Rattle.alm_events.specs.Events.{most_kept};
    ghost use Rattle.alm_events.specs.Turning.{turned};

    ghost Value = { List Event };

    ghost view = { λ r. turned r.oldest r.events.items };

    ghost invariant = { λ r.
        (vec_capacity r.events ≡ most_kept) × (length r.events.items ≤ most_kept) ×
        (r.oldest < most_kept) × ((r.oldest ≡ 0) ⊎ (length r.events.items ≡ most_kept)) };
}

impl RecentEvents {
    ghost use Rattle.std.specs.Prelude.{◌≡◌, ◌≤◌, ◌<◌, ◌+◌, ◌-◌, ◌++◌, ◌∷◌, ◌↔◌, [], IfOk, IsTrue, Some, slice_get, length, take, drop, vec_capacity, false};
    ghost use Rattle.alm_events.specs.Events.{most_kept, most_told, last};

    /// None yet; an error only if out of memory.
    pub fn new(alloc: Global) -> Result<Self, AllocError>
        ensures { IfOk result (λ recent. recent ≡ []) }
    {
        let events = Vec::with_capacity(alloc, MOST_KEPT)?;
        Ok(RecentEvents { events, oldest: 0 })
    }

    /// How many are kept.
    pub fn len(&self) -> usize
        ensures length { result ≡ length self.now }
        ensures limit { result ≤ most_kept }
    {
        self.events.len()
    }

    /// One more; the oldest is forgotten if there were [`MOST_KEPT`]. It takes no memory.
    pub fn push(&mut self, event: Event)
        ensures { self.new ≡ last most_kept (self.old ++ event ∷ []) }
    {
        let Event {
            moment,
            slot,
            action,
        } = event;
        if self.events.len() < MOST_KEPT {
            self.events.push_reserved(Event {
                moment,
                slot,
                action,
            });
            return;
        }
        let place = self.oldest;
        self.events[place] = Event {
            moment,
            slot,
            action,
        };
        self.oldest = if place + 1 < MOST_KEPT { place + 1 } else { 0 };
    }

    // The one at an index.
    fn at(&self, index: usize) -> Event
        requires { index < length self.now }
        ensures { slice_get self.now index ≡ Some result }
    {
        let rest = self.events.len() - self.oldest;
        if index < rest {
            self.events[self.oldest + index]
        } else {
            self.events[index - rest]
        }
    }

    // Copies those from an index on, at most `MOST_TOLD`.
    fn copy(&self, from: usize, out: &mut Vec<Event>)
        requires from { from ≤ length self.now }
        requires empty { out.old.items ≡ [] }
        requires room { most_told ≤ vec_capacity out.old }
        ensures told { out.new.items ≡ take most_told (drop from self.now) }
        ensures room { vec_capacity out.new ≡ vec_capacity out.old }
    {
        let rest = self.len() - from;
        let more = if rest < MOST_TOLD { rest } else { MOST_TOLD };
        for index in 0..more {
            let Event {
                moment,
                slot,
                action,
            } = self.at(from + index);
            out.push_reserved(Event {
                moment,
                slot,
                action,
            });
        }
    }

    /// Copies the events after number `after`, at most [`MOST_TOLD`], if all of those up to the count are kept: whether they
    /// are. It takes no memory.
    pub fn recall(&self, count: u64, after: u64, out: &mut Vec<Event>) -> bool
        requires room { most_told ≤ vec_capacity out.old }
        ensures kept { IsTrue result ↔ (count ≤ after + length self.now) }
        ensures told { IsTrue result →
            out.new.items ≡ take most_told (drop (after - (count - length self.now)) self.now) }
        ensures forgotten { result ≡ false → out.new.items ≡ out.old.items }
        ensures room { vec_capacity out.new ≡ vec_capacity out.old }
    {
        let len = self.len();
        let before = count.saturating_sub(len as u64);
        if after < before {
            return false;
        }
        out.clear();
        let passed = after - before;
        if passed < len as u64 {
            self.copy(passed as usize, out);
        }
        true
    }
}
