//! Pieces of streams.

use alm_types::Slot;

/// Bytes that came at a slot.
#[derive(Clone, Copy)]
pub struct Piece<'a> {
    pub slot: Slot,
    pub bytes: &'a [u8],
}
