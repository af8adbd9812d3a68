//! Devices that fail, for every call of the run.

use crate::choosers::Stood;
use crate::run::{CALLS, Step, device, make, make_first, row_of};
use alm_common_tests::{same, same_at};
use alm_disk::{AsRead, Crashable, FuseDisk, OnceDisk};
use std::test::Fail;

#[test]
fn a_fuse_serves_so_many_calls_and_then_none(rt: HostRuntime) -> Result<(), Fail> {
    for calls in 0..=CALLS + 1 {
        let mut disk = FuseDisk::new(device(rt.alloc(), 20)?, calls);
        let mut into = [0; 8];
        for number in 1..=CALLS {
            let served = make(&mut disk, row_of(number).step, &mut into).is_ok();
            same_at((number, calls), served, number <= calls)?;
        }
        same(disk.disk.calls().len() as u64, calls.min(CALLS))?;
        same(disk.disk.failures(), CALLS.saturating_sub(calls))?;
    }
    Ok(())
}

#[test]
fn a_fuse_fails_no_more_after_a_crash(rt: HostRuntime) -> Result<(), Fail> {
    for calls in 0..=CALLS {
        let mut disk = FuseDisk::new(device(rt.alloc(), 20)?, calls);
        let _ = make_first(&mut disk, CALLS);
        let mut disk = disk.crash(&mut AsRead);
        same_at(calls, make_first(&mut disk, CALLS), 0)?;
    }
    Ok(())
}

#[test]
fn a_blown_fuse_leaves_a_write_pending(rt: HostRuntime) -> Result<(), Fail> {
    let mut disk = FuseDisk::new(device(rt.alloc(), 20)?, 0);
    let mut into = [0; 8];
    assert!(rt; make(&mut disk, Step::Write(2, b"345"), &mut into).is_err());
    same(disk.disk.bytes(), b"abcdefgh".as_slice())?;
    let disk = disk.crash(&mut Stood { bytes: b"????????" });
    same(disk.disk.bytes(), b"ab???fgh".as_slice())?;
    Ok(())
}

#[test]
fn one_call_fails_and_the_others_are_served(rt: HostRuntime) -> Result<(), Fail> {
    for call in 0..=CALLS + 1 {
        let mut disk = OnceDisk::new(device(rt.alloc(), 20)?, call);
        let mut into = [0; 8];
        for number in 1..=CALLS {
            let served = make(&mut disk, row_of(number).step, &mut into).is_ok();
            same_at((number, call), served, number != call)?;
        }
        let once = (1..=CALLS).contains(&call);
        same(disk.disk.failures(), if once { 1 } else { 0 })?;
    }
    Ok(())
}

#[test]
fn a_crash_leaves_the_fault_that_is_to_come(rt: HostRuntime) -> Result<(), Fail> {
    for call in 1..=CALLS {
        let disk = OnceDisk::new(device(rt.alloc(), 20)?, call);
        let mut disk = disk.crash(&mut AsRead);
        same_at(call, make_first(&mut disk, CALLS), 1)?;
    }
    Ok(())
}
