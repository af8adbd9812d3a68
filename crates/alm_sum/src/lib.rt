//! The checksum of bytes: CRC-32C (Castagnoli), as iSCSI has it (RFC 3720, 12.1).
//!
//! ```text
//! let sum = checksum(text);
//! let sum = register_after(register_after(START, front), back) ^ START;
//! ```
//!
//! A checksum is a number of 32 bits. The register that makes it begins with ones, takes the bytes in their order, each from its
//! lowest bit on, and is inverted at the end. Bytes that come in pieces go into one register after the other. The checksum of
//! the text `123456789` is E3069283.
//!
//! What is used above: the checksum is that of the definition in specs/Crc, which divides bit by bit. This crate looks up eight
//! bytes at once, in eight tables of 1 KiB each, and the up to seven bytes after these one by one, in the first table. Of two
//! texts that differ within four neighbouring bytes alone the checksums differ. Not covered: texts that differ in
//! more places, or in length; these may have one checksum. It is no signature: whoever changes a text can make its checksum too.
//!
//! It is for the texts of version 03 in `alm_codec` and `alm_checkpoint`. No call here takes memory.
//!
//! Proved:
//! - the checksum that is looked up is the one that is divided bit by bit; a change within four neighbouring bytes changes it
//!   (by `checksum`, `register_after`, `laws`)
#![tactic(auto)]

pub mod laws;
mod register;
mod tables;

pub use register::{START, checksum, register_after};
