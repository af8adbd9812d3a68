//! Out of memory: run with each allocation refused in turn (`rt try --test --fail-alloc N`), the test of this module passes. One is
//! refused at most, so what was refused succeeds the second time.

use alm_bench::{Bench, Step, StepEvent};
use alm_common_tests::{moment_of, same, slot_of};
use alm_desk::worked_table;
use alm_disk::MemDisk;
use alm_keeper::{OpenFault, format};
use alm_types::{Action, Want};
use std::alloc::{AllocError, Global};
use std::test::Fail;

/// The smallest device that takes the worked table, and more calls than are made on it.
const SIZE: usize = 28_997;

const CALLS: usize = 100;

/// A device that is formatted for the worked table, if there was memory for it.
fn made(alloc: Global) -> Option<MemDisk> {
    let table = worked_table(alloc).ok()?;
    let bytes = vec![in alloc; 0u8; SIZE].ok()?;
    let disk = MemDisk::new(alloc, bytes, CALLS).ok()?;
    format(alloc, disk, &table).ok()
}

/// The first event of a run of these steps, which is tried once more if it is refused.
fn first_event(alloc: Global, bench: &mut Bench<MemDisk>, steps: &[Step]) -> Option<StepEvent> {
    let trace = match bench.run(alloc, steps) {
        Ok(trace) => trace,
        Err(AllocError) => bench.run(alloc, steps).ok()?,
    };
    trace.first().copied()
}

/// The same on a new device; or why it wasn't opened.
fn first_on_new(alloc: Global, steps: &[Step]) -> Result<Option<StepEvent>, OpenFault> {
    let disk = made(alloc).ok_or(OpenFault::OutOfMemory)?;
    match Bench::new(alloc, disk) {
        Ok(mut bench) => Ok(first_event(alloc, &mut bench, steps)),
        Err((fault, _disk)) => Err(fault),
    }
}

#[test]
fn a_run_without_memory_makes_no_step(rt: HostRuntime) -> Result<(), Fail> {
    let clock = slot_of(17)?;
    let steps = [Step::Send(clock, Want::Do(Action::Clock(moment_of(1000)?)))];
    let event = match first_on_new(rt.alloc(), &steps) {
        Err(OpenFault::OutOfMemory) => first_on_new(rt.alloc(), &steps),
        event => event,
    };
    same(event, Ok(Some(StepEvent::Sent(1))))?;
    Ok(())
}
