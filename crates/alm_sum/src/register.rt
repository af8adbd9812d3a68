//! The register of a checksum.

ghost use Rattle.std.specs.Prelude.{◌≡◌};
ghost use Rattle.alm_sum.specs.Crc.{register_after_byte, register_after_bytes, checksum_of};

use crate::tables::table_8::shifted_8;
use crate::tables::table_16::shifted_16;
use crate::tables::table_24::shifted_24;
use crate::tables::table_32::shifted_32;
use crate::tables::table_40::shifted_40;
use crate::tables::table_48::shifted_48;
use crate::tables::table_56::shifted_56;
use crate::tables::table_64::shifted_64;

/// The register before the first byte; at the end it is inverted by it.
pub const START: u32 = 0xFFFF_FFFF;

/// The register after one byte more.
fn step(register: u32, byte: u8) -> u32
    ensures { result ≡ register_after_byte register byte }
{
    (register >> 8) ^ shifted_8((register % 256) as u8 ^ byte)
}

/// The register after eight bytes more: of the first one 64 shifts are made, of the last one eight.
fn step_eight(register: u32, bytes: [u8; 8]) -> u32
    ensures { result ≡ register_after_bytes register bytes }
{
    let first = register.to_le_bytes();
    // The bytes that meet none of the register's come first: their look-ups wait for nothing.
    shifted_8(bytes[7])
        ^ shifted_16(bytes[6])
        ^ shifted_24(bytes[5])
        ^ shifted_32(bytes[4])
        ^ shifted_40(first[3] ^ bytes[3])
        ^ shifted_48(first[2] ^ bytes[2])
        ^ shifted_56(first[1] ^ bytes[1])
        ^ shifted_64(first[0] ^ bytes[0])
}

/// The register after these bytes more.
pub fn register_after(register: u32, bytes: &[u8]) -> u32
    ensures { result ≡ register_after_bytes register bytes.now }
{
    let mut register = register;
    let mut left = bytes;
    while let Some((eight, rest)) = left.split_first_chunk::<8>() {
        register = step_eight(register, *eight);
        left = rest;
    }
    for byte in left {
        register = step(register, *byte);
    }
    register
}

/// The checksum of these bytes.
pub fn checksum(bytes: &[u8]) -> u32
    ensures { result ≡ checksum_of bytes.now }
{
    register_after(START, bytes) ^ START
}
