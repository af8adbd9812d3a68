//! Gates: each of the 256 values in each version.

use alm_codec::{OPEN_GATE, Version};
use alm_common_tests::{holds_at, same};
use std::test::Fail;

#[test]
fn one_value_is_open_in_versions_01_and_02() -> Result<(), Fail> {
    for version in [Version::V01, Version::V02] {
        for gate in 0..=255u8 {
            same(version.is_open(gate), gate == 0xA5)?;
        }
        same(version.closed_gate(), 0)?;
    }
    Ok(())
}

#[test]
fn one_value_is_closed_in_version_03() -> Result<(), Fail> {
    for gate in 0..=255u8 {
        same(Version::V03.is_open(gate), gate != 0x5A)?;
    }
    same(Version::V03.closed_gate(), 0x5A)?;
    Ok(())
}

#[test]
fn no_flip_of_fewer_than_eight_bits_closes_a_gate() -> Result<(), Fail> {
    same(OPEN_GATE, 0xA5)?;
    for flip in 0..255u8 {
        holds_at(flip, Version::V03.is_open(OPEN_GATE ^ flip))?;
    }
    Ok(())
}
