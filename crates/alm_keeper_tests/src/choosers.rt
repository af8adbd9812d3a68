//! What a crash makes of the pending bytes.

use alm_disk::Chooser;

/// What a crash makes of the pending bytes.
#[derive(Drop)]
pub enum Left<'a> {
    /// They are as they read.
    AsRead,
    /// They are as at the last sync.
    Stood(&'a [u8]),
    /// Each is this byte.
    Every(u8),
    /// They are this byte and that one by turns.
    Turns(u8, u8),
}

impl<'a> Left<'a> {
    /// The byte at a place that reads as this one.
    pub fn byte(&self, at: u64, read: u8) -> u8 {
        match self {
            Left::AsRead => read,
            Left::Stood(bytes) => bytes.get(at as usize).copied().unwrap_or(read),
            Left::Every(byte) => *byte,
            Left::Turns(even, odd) => { if at % 2 == 0 { *even } else { *odd } }
        }
    }
}

impl<'a> Chooser for Left<'a> {
    ghost names = { λ _ _ _ _. Unit {0} };

    fn choose(&mut self, at: u64, read: u8) -> u8 {
        self.byte(at, read)
    }
}
