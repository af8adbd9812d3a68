//! The bytes that went one way over a stream.

ghost use Rattle.std.specs.Prelude.{◌≡◌, ◌++◌, ℕ, List, []};
ghost use Rattle.std.specs.Borrow.{ftrue};

use std::marker::{Model, PhantomData};

/// The bytes that went one way over a stream, in order. Contracts alone see it: it takes no memory, and no code reads it.
#[derive(Drop)]
pub struct Transcript {
    marker: PhantomData<u8>,
    pub ghost bytes: { List ℕ },
}

impl Model for Transcript {
    ghost also_owns = { λ _. ftrue };
}

// It owns nothing.
unsafe impl Send for Transcript {}

impl Transcript {
    /// None yet.
    pub fn new() -> Transcript
        ensures { result.bytes ≡ [] }
    {
        Transcript {
            marker: PhantomData,
        }
    }

    /// The same bytes once more.
    pub fn copy(&self) -> Transcript
        ensures { result.bytes ≡ self.now.bytes }
    {
        Transcript {
            marker: PhantomData,
        }
    }

    /// Does nothing: it says that these bytes are in it now, after the others.
    pub fn note(&mut self, _bytes: &[u8])
        ensures { self.new.bytes ≡ self.old.bytes ++ _bytes.now }
    {}
}
