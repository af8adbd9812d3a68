//! A line that has not ended yet.

ghost use Rattle.std.specs.Prelude.{◌≡◌, ◌++◌, ◌∷◌, [], take};

use std::marker::Model;

/// The bytes of a line so far; no more than `LIMIT` of them count.
#[derive(Drop)]
pub struct HeldLine<const LIMIT: usize> {
    bytes: [u8; LIMIT],
    len: usize,
}

impl<const LIMIT: usize> Model for HeldLine<LIMIT> {
    ghost use Rattle.std.specs.Prelude.{ℕ, List, take, ◌≤◌};

    ghost Value = { List ℕ };

    ghost view = { λ h. take h.len h.bytes };

    ghost invariant = { λ h. h.len ≤ LIMIT };
}

impl<const LIMIT: usize> HeldLine<LIMIT> {
    pub fn new() -> Self
        ensures { result ≡ [] }
    {
        HeldLine {
            bytes: [0; LIMIT],
            len: 0,
        }
    }

    /// Adds a byte, as far as it counts.
    pub fn push(&mut self, byte: u8)
        ensures { self.new ≡ take LIMIT (self.old ++ byte ∷ []) }
    {
        if self.len < LIMIT {
            self.bytes[self.len] = byte;
            self.len += 1;
        }
    }

    pub fn bytes(&self) -> &[u8]
        ensures { result.now ≡ self.now }
    {
        &self.bytes[..self.len]
    }

    pub fn clear(&mut self)
        ensures { self.new ≡ [] }
    {
        self.len = 0;
    }
}
