//! The record of a device in memory, and its count of failures.

use crate::choosers::Stood;
use crate::refused::{LARGE, large};
use crate::run::{CALLS, Step, device, make, make_first};
use alm_common_tests::same;
use alm_disk::{Call, Crashable, DiskFault};
use std::test::Fail;

#[test]
fn the_record_has_each_call_in_its_order(rt: HostRuntime) -> Result<(), Fail> {
    let mut disk = device(rt.alloc(), 10)?;
    same(make_first(&mut disk, CALLS), 0)?;
    let want = [
        Call::Write { at: 0, length: 2 },
        Call::Sync,
        Call::Write { at: 1, length: 3 },
        Call::Read { at: 0, length: 4 },
        Call::Write { at: 3, length: 2 },
        Call::Sync,
        Call::Write { at: 7, length: 1 },
        Call::Read { at: 6, length: 2 },
        Call::Sync,
        Call::Write { at: 0, length: 1 },
    ];
    same(disk.calls(), want.as_slice())?;
    Ok(())
}

#[test]
fn a_read_gives_the_bytes(rt: HostRuntime) -> Result<(), Fail> {
    let mut disk = device(rt.alloc(), 10)?;
    let mut into = [0; 8];
    same(make(&mut disk, Step::Read(2, 3), &mut into), Ok(()))?;
    same(into, *b"cde\0\0\0\0\0")?;
    Ok(())
}

#[test]
fn a_call_past_the_room_fails_and_is_not_noted(rt: HostRuntime) -> Result<(), Fail> {
    for step in [Step::Read(0, 1), Step::Write(0, b"?"), Step::Sync] {
        let mut disk = device(rt.alloc(), 1)?;
        let mut into = [0; 8];
        same(make(&mut disk, Step::Write(5, b"56"), &mut into), Ok(()))?;
        same(make(&mut disk, step, &mut into), Err(DiskFault))?;
        same(disk.calls(), [Call::Write { at: 5, length: 2 }].as_slice())?;
        same(disk.failures(), 1)?;
        same(disk.bytes(), b"abcde56h".as_slice())?;
    }
    Ok(())
}

#[test]
fn a_write_that_failed_is_pending(rt: HostRuntime) -> Result<(), Fail> {
    let mut disk = device(rt.alloc(), 0)?;
    let mut into = [0; 8];
    same(
        make(&mut disk, Step::Write(2, b"345"), &mut into),
        Err(DiskFault),
    )?;
    same(disk.bytes(), b"abcdefgh".as_slice())?;
    let disk = disk.crash(&mut Stood { bytes: b"????????" });
    same(disk.into_bytes().as_slice(), b"ab???fgh".as_slice())?;
    Ok(())
}

#[test]
fn the_count_stays_at_its_last_value(rt: HostRuntime) -> Result<(), Fail> {
    let mut disk = device(rt.alloc(), 0)?.with_failures(u64::MAX - 1);
    let mut into = [0; 8];
    for step in [Step::Sync, Step::Read(0, 1), Step::Write(0, b"?")] {
        same(make(&mut disk, step, &mut into), Err(DiskFault))?;
        same(disk.failures(), u64::MAX)?;
    }
    Ok(())
}

#[test]
fn a_large_device_is_made_where_there_is_memory(rt: HostRuntime) -> Result<(), Fail> {
    same(large(rt.alloc())?.bytes().len(), LARGE)?;
    Ok(())
}

#[test]
fn a_fault_says_what_it_is(rt: HostRuntime) -> Result<(), Fail> {
    let text = format!(in rt.alloc(); "{}", DiskFault)?;
    same(text.as_str(), "a call of the device failed")?;
    Ok(())
}
