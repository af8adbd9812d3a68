//! Every byte of the worked device set in turn to 00, 01, 02, 5A, A5 and FF: opening reports what the second judge reports.

use crate::judge::judged;
use crate::worked::{device_of, open, set};
use alm_codec::Version;
use alm_common_tests::same;
use std::alloc::Global;
use std::ops::Range;
use std::test::Fail;

/// The first place in a range at which opening and the judge don't agree on a changed byte of the device of a version.
fn dispute_in(
    alloc: Global,
    version: Version,
    places: Range<usize>,
) -> Result<Option<usize>, Fail> {
    let mut bytes = device_of(alloc, version, 2, 800)?;
    for at in places {
        let old = *bytes.get(at).ok_or("place")?;
        for byte in [0, 1, 2, 0x5A, 0xA5, 0xFF] {
            set(&mut bytes, at, byte)?;
            if open(alloc, &bytes) != judged(&bytes) {
                return Ok(Some(at));
            }
        }
        set(&mut bytes, at, old)?;
    }
    Ok(None)
}

fn first_dispute(alloc: Global, places: Range<usize>) -> Result<Option<usize>, Fail> {
    dispute_in(alloc, Version::V01, places)
}

#[test]
fn header_and_head(rt: HostRuntime) -> Result<(), Fail> {
    same(first_dispute(rt.alloc(), 0..64)?, None)?;
    same(dispute_in(rt.alloc(), Version::V02, 0..64)?, None)?;
    same(dispute_in(rt.alloc(), Version::V03, 0..64)?, None)?;
    Ok(())
}

#[test]
fn frames_and_gates_of_version_03(rt: HostRuntime) -> Result<(), Fail> {
    same(dispute_in(rt.alloc(), Version::V03, 9666..9676)?, None)?;
    same(dispute_in(rt.alloc(), Version::V03, 10_394..10_470)?, None)?;
    same(dispute_in(rt.alloc(), Version::V03, 14_509..14_536)?, None)?;
    Ok(())
}

#[test]
fn areas(rt: HostRuntime) -> Result<(), Fail> {
    same(first_dispute(rt.alloc(), 64..9666)?, None)?;
    Ok(())
}

#[test]
fn alarms(rt: HostRuntime) -> Result<(), Fail> {
    same(first_dispute(rt.alloc(), 9666..10_394)?, None)?;
    Ok(())
}

#[test]
fn segment(rt: HostRuntime) -> Result<(), Fail> {
    same(first_dispute(rt.alloc(), 10_394..14_510)?, None)?;
    Ok(())
}

#[test]
fn second_half(rt: HostRuntime) -> Result<(), Fail> {
    same(first_dispute(rt.alloc(), 14_510..28_997)?, None)?;
    Ok(())
}
