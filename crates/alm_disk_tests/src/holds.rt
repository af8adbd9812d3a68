//! A device under a hold.

use crate::counted::Counted;
use crate::run::{CALLS, device, make_first};
use alm_common_tests::{same, slot_of};
use alm_disk::{Free, HeldDisk, Hold};
use std::sync::Arc;
use std::sync::atomic::Ordering;
use std::test::Fail;

#[test]
fn a_free_device_serves_every_call(rt: HostRuntime) -> Result<(), Fail> {
    let mut disk = HeldDisk::new(device(rt.alloc(), 10)?, Free);
    same(make_first(&mut disk, CALLS), 0)?;
    same(disk.disk.calls().len(), 10)?;
    Ok(())
}

#[test]
fn a_sync_that_is_held_fails_and_reaches_no_device(rt: HostRuntime) -> Result<(), Fail> {
    let mut disk = HeldDisk::new(device(rt.alloc(), 10)?, Counted::new(false));
    same(make_first(&mut disk, CALLS), 3)?;
    same(disk.disk.calls().len(), 7)?;
    Ok(())
}

#[test]
fn a_hold_is_asked_once_a_sync(rt: HostRuntime) -> Result<(), Fail> {
    for begins in [false, true] {
        let mut disk = HeldDisk::new(device(rt.alloc(), 10)?, Counted::new(begins));
        let _ = make_first(&mut disk, 1);
        assert_eq!(rt; disk.hold.asked.load(Ordering::SeqCst), 0, "no sync");
        let _ = make_first(&mut disk, CALLS);
        assert_eq!(rt; disk.hold.asked.load(Ordering::SeqCst), 3, "three syncs");
    }
    Ok(())
}

#[test]
fn a_hold_is_told_through_its_arc(rt: HostRuntime) -> Result<(), Fail> {
    let hold = Arc::new(rt.alloc(), Counted::new(true))?;
    let mut disk = HeldDisk::new(device(rt.alloc(), 10)?, hold.clone()?);
    same(make_first(&mut disk, CALLS), 0)?;
    assert_eq!(rt; hold.asked.load(Ordering::SeqCst), 3, "three syncs");
    for slot in [5, 5, 6] {
        hold.taken(slot_of(slot)?);
    }
    hold.looked(slot_of(5)?);
    hold.looked(slot_of(6)?);
    same(hold.taken.load(Ordering::SeqCst), 2)?;
    same(hold.looked.load(Ordering::SeqCst), 1)?;
    Ok(())
}
