//! The batch that a flusher holds.

use alm_types::{Batch, Entry};

/// What a flusher holds, and how far it is.
#[derive(Drop)]
pub enum Held {
    Nothing,
    Fetched(Batch),
    /// Its commit has failed permanently.
    Failed(Batch),
    Committed(Batch),
    /// And how many of its verdicts are released.
    Published(Batch, usize),
}

impl Held {
    ghost use Rattle.std.specs.Prelude.{◌≡◌, IsSome};
    ghost use Rattle.alm_flush.specs.HeldBatch.{next_entry_of, after_release};

    /// The entry whose verdict is the next to be released.
    pub fn next(&self) -> Option<Entry>
        ensures { result ≡ next_entry_of self.now }
    {
        match self {
            Held::Published(batch, released) => batch.entries().get(*released).copied(),
            Held::Nothing => None,
            Held::Fetched(_) => None,
            Held::Failed(_) => None,
            Held::Committed(_) => None,
        }
    }

    /// One verdict more is released.
    pub fn pass(&mut self)
        requires { IsSome (next_entry_of self.old) }
        ensures { self.new ≡ after_release self.old }
    {
        if let Held::Published(batch, released) = self {
            // for the proof: a batch has at most 256 entries, so `released` has room for one more
            let _entries = batch.entries();
            *released += 1;
        }
    }
}
