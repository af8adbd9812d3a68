//! What the tests let a crash leave.

use alm_disk::Chooser;

/// Names at each place the byte that was there before, one of `bytes`.
#[derive(Drop)]
pub struct Stood<'a> {
    pub bytes: &'a [u8],
}

impl<'a> Chooser for Stood<'a> {
    ghost names = { λ _ _ _ _. Unit {0} };

    fn choose(&mut self, at: u64, read: u8) -> u8 {
        self.bytes.get(at as usize).copied().unwrap_or(read)
    }
}

/// Names this byte at one place, and at every other what reads.
#[derive(Drop)]
pub struct Single {
    pub at: u64,
    pub byte: u8,
}

impl Chooser for Single {
    ghost names = { λ _ _ _ _. Unit {0} };

    fn choose(&mut self, at: u64, read: u8) -> u8 {
        if at == self.at { self.byte } else { read }
    }
}
