//! Out of memory: run with each allocation refused in turn (`rt try --test --fail-alloc N`), the tests of this module pass. One
//! is refused at most, so what was refused is made the second time: a maker that always gives up doesn't pass.

use crate::worked::{SIZE, try_device, try_table};
use alm_common_tests::same;
use alm_disk::{Call, MemDisk};
use alm_keeper::{FormatFault, OpenFault, format, open_store};
use std::alloc::Global;
use std::test::Fail;

/// A formatting, if there was memory for the device and the table: why it failed, and how many calls were made.
fn formatted(alloc: Global) -> Option<(Option<FormatFault>, usize)> {
    let disk = try_device(alloc, SIZE)?;
    let table = try_table(alloc)?;
    match format(alloc, disk, &table) {
        Ok(disk) => Some((None, disk.calls().len())),
        Err((fault, disk)) => Some((Some(fault), disk.calls().len())),
    }
}

#[test]
fn a_formatting_without_memory_makes_no_call(rt: HostRuntime) -> Result<(), Fail> {
    let first = formatted(rt.alloc());
    if let Some((Some(fault), calls)) = first {
        same(fault, FormatFault::OutOfMemory)?;
        same(calls, 0)?;
    }
    let whole = match first {
        Some((None, calls)) => Some((None, calls)),
        _ => formatted(rt.alloc()),
    };
    assert!(rt; whole == Some((None, 10)));
    Ok(())
}

/// A formatted device, if there was memory for it.
fn made(alloc: Global) -> Option<MemDisk> {
    let disk = try_device(alloc, SIZE)?;
    let table = try_table(alloc)?;
    format(alloc, disk, &table).ok()
}

/// How many writes a device has noted.
fn writes(disk: &MemDisk) -> usize {
    let mut writes: usize = 0;
    for call in disk.calls() {
        if matches!(call, Call::Write { .. }) {
            writes = writes.saturating_add(1);
        }
    }
    writes
}

#[test]
fn an_opening_without_memory_writes_nothing(rt: HostRuntime) -> Result<(), Fail> {
    let alloc = rt.alloc();
    let disk = match made(alloc) {
        Some(disk) => disk,
        None => made(alloc).ok_or("refused twice")?,
    };
    let before = writes(&disk);
    let keeper = match open_store(alloc, disk) {
        Ok(keeper) => keeper,
        Err((fault, disk)) => {
            same(fault, OpenFault::OutOfMemory)?;
            same(writes(&disk), before)?;
            open_store(alloc, disk).map_err(|_| "refused twice")?
        }
    };
    same(writes(&keeper.into_disk()), before)?;
    Ok(())
}
