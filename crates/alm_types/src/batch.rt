//! Batches.

ghost use Rattle.std.specs.Prelude.{◌≡◌, ◌<◌, ◌≤◌, ◌++◌, [], ◌∷◌, ◌↔◌, IfOk, IsTrue, length};
ghost use Rattle.alm_types.specs.Sizes.{most_entries};

use crate::entry::Entry;
use std::alloc::{AllocError, Global};
use std::marker::Model;

/// The most requests of a batch.
pub const MOST_ENTRIES: usize = 256;

/// Requests that are committed together, in the order in which they were judged: at most [`MOST_ENTRIES`], with their
/// room reserved.
#[derive(Drop)]
pub struct Batch {
    first: u64,
    entries: Vec<Entry>,
}

impl Model for Batch {
    ghost use Rattle.std.specs.Prelude.{◌≡◌, ◌≤◌, length, vec_capacity};
    ghost use Rattle.alm_types.specs.Batches.{Judged};
    ghost use Rattle.alm_types.specs.Sizes.{most_entries};

    ghost Value = { Judged };

    ghost view = { λ b. record { first = b.first; entries = b.entries.items } };

    ghost invariant = { λ b. (vec_capacity b.entries ≡ most_entries) ×
        (length b.entries.items ≤ most_entries) };
}

impl Batch {
    /// An empty batch for a plant without actions; an error only if out of memory.
    pub fn new(alloc: Global) -> Result<Self, AllocError>
        ensures { IfOk result (λ batch. batch ≡ record { first = 1; entries = [] }) }
    {
        let entries = Vec::with_capacity(alloc, MOST_ENTRIES)?;
        Ok(Batch { first: 1, entries })
    }

    /// The number that its first accepted action has.
    pub fn first(&self) -> u64
        ensures { result ≡ self.now.first }
    {
        self.first
    }

    /// What was judged.
    pub fn entries(&self) -> &[Entry]
        ensures entries { result.now ≡ self.now.entries }
        ensures limit { length result.now ≤ most_entries }
    {
        &self.entries
    }

    /// Whether it takes no further entry.
    pub fn is_full(&self) -> bool
        ensures full { IsTrue result ↔ (length self.now.entries ≡ most_entries) }
        ensures limit { length self.now.entries ≤ most_entries }
    {
        self.entries.len() == MOST_ENTRIES
    }

    /// Appends an entry, without taking memory.
    pub fn push(&mut self, entry: Entry)
        requires { length self.old.entries < most_entries }
        ensures { self.new ≡
            record { first = self.old.first; entries = self.old.entries ++ entry ∷ [] } }
    {
        let Entry {
            slot,
            serial,
            want,
            verdict,
        } = entry;
        self.entries.push_reserved(Entry {
            slot,
            serial,
            want,
            verdict,
        });
    }

    /// Empties it for the actions from number `first` on, and keeps its room.
    pub fn restart(&mut self, first: u64)
        ensures { self.new ≡ record { first = first; entries = [] } }
    {
        self.first = first;
        self.entries.clear();
    }
}
