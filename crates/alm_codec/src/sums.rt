//! The checksum of two texts, one after the other.

ghost use Rattle.std.specs.Prelude.{◌≡◌, ◌++◌};
ghost use Rattle.alm_sum.specs.Crc.{checksum_of};

use alm_sum::{START, register_after};

/// The checksum of two texts, one after the other.
pub fn sum_of(front: &[u8], back: &[u8]) -> u32
    ensures { result ≡ checksum_of (front.now ++ back.now) }
{
    register_after(register_after(START, front), back) ^ START
}
