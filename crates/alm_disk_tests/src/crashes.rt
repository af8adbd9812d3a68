//! What is left after each call of the run.

use crate::choosers::{Single, Stood};
use crate::run::{CALLS, START, device, make_first, row_of};
use alm_common_tests::{same, same_at};
use alm_disk::{AsRead, Crashable, MemDisk};
use std::alloc::{AllocError, Global};
use std::test::Fail;

// A device after the first calls of the run.
fn after(alloc: Global, calls: u64) -> Result<MemDisk, AllocError> {
    let mut disk = device(alloc, 10)?;
    let _ = make_first(&mut disk, calls);
    Ok(disk)
}

#[test]
fn reads_as_the_rows_say(rt: HostRuntime) -> Result<(), Fail> {
    same(after(rt.alloc(), 0)?.bytes(), START)?;
    for calls in 1..=CALLS {
        let disk = after(rt.alloc(), calls)?;
        same_at(calls, disk.bytes(), row_of(calls).reads)?;
        same(disk.failures(), 0)?;
    }
    Ok(())
}

#[test]
fn a_crash_leaves_what_stood_or_what_reads(rt: HostRuntime) -> Result<(), Fail> {
    for calls in 1..=CALLS {
        let row = row_of(calls);
        let old = after(rt.alloc(), calls)?.crash(&mut Stood { bytes: row.stood });
        same_at(calls, old.bytes(), row.stood)?;
        let new = after(rt.alloc(), calls)?.crash(&mut AsRead);
        same_at(calls, new.bytes(), row.reads)?;
    }
    Ok(())
}

#[test]
fn a_crash_leaves_any_byte_at_a_pending_place_alone(rt: HostRuntime) -> Result<(), Fail> {
    for calls in 1..=CALLS {
        let row = row_of(calls);
        for place in 0..8 {
            let mut single = Single {
                at: place,
                byte: b'?',
            };
            let disk = after(rt.alloc(), calls)?.crash(&mut single);
            for other in 0..8 {
                let named = other == place && row.pending.get(other as usize) == Some(&b'#');
                let want = if named {
                    Some(&b'?')
                } else {
                    row.reads.get(other as usize)
                };
                same_at((other, calls), disk.bytes().get(other as usize), want)?;
            }
        }
    }
    Ok(())
}

#[test]
fn nothing_is_pending_after_a_crash(rt: HostRuntime) -> Result<(), Fail> {
    for calls in 1..=CALLS {
        let disk = after(rt.alloc(), calls)?.crash(&mut AsRead);
        let again = disk.crash(&mut Stood { bytes: b"????????" });
        same_at(calls, again.bytes(), row_of(calls).reads)?;
    }
    Ok(())
}
