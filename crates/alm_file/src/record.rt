//! The record of a file's calls.

ghost use Rattle.std.specs.Prelude.{◌≡◌, List, [], ◌∷◌};
ghost use Rattle.std.specs.Borrow.{ftrue};
ghost use Rattle.alm_file.specs.Events.{FileEvent, event_of};

use std::marker::{Model, PhantomData};

/// The calls of a file with their answers, the newest first. Contracts alone see it: it takes no memory, and no code reads it.
#[derive(Drop)]
pub struct Record {
    marker: PhantomData<u8>,
    pub ghost events: { List FileEvent },
}

impl Model for Record {
    ghost also_owns = { λ _. ftrue };
}

impl Record {
    /// An empty one.
    pub fn new() -> Record
        ensures { result.events ≡ [] }
    {
        Record {
            marker: PhantomData,
        }
    }

    /// Does nothing: it says that the call of these numbers is in it now, with these bytes. The numbers are kind, place, length,
    /// and 1 if it was done.
    pub fn note(&mut self, _numbers: &[u64], _bytes: &[u8])
        ensures { self.new.events ≡ event_of _numbers.now _bytes.now ∷ self.old.events }
    {}
}
