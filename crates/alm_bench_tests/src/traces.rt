//! Traces of runs on newly formatted devices.

use alm_bench::{Step, StepEvent, whole_life};
use alm_desk::worked_table;
use alm_disk::MemDisk;
use alm_keeper::format;
use alm_types::Table;
use std::alloc::Global;
use std::test::Fail;

/// The smallest device that takes the worked table.
const SIZE: usize = 28_997;

/// A device that is formatted for the worked table.
pub fn formatted(alloc: Global, calls: usize) -> Result<MemDisk, Fail> {
    let table = worked_table(alloc)?;
    let disk = MemDisk::new(alloc, vec![in alloc; 0u8; SIZE]?, calls)?;
    match format(alloc, disk, &table) {
        Ok(disk) => Ok(disk),
        Err(_) => Err("a device".into()),
    }
}

/// A table of `alarms` alarms in 2 areas, each like the worked table's first.
pub fn alike(alloc: Global, alarms: usize) -> Result<Table, Fail> {
    let first = *worked_table(alloc)?.alarms().first().ok_or("an alarm")?;
    match Table::new(vec![in alloc; first; alarms]?, 2) {
        Ok(table) => Ok(table),
        Err(_) => Err("a table".into()),
    }
}

/// The trace of these steps on a device that is formatted for the worked table, and of which `calls` calls succeed.
pub fn trace(alloc: Global, calls: usize, steps: &[Step]) -> Result<Vec<StepEvent>, Fail> {
    trace_on(alloc, &worked_table(alloc)?, (SIZE, calls), steps)
}

/// The same on a device of a number of bytes that is formatted for a table.
pub fn trace_on(
    alloc: Global,
    table: &Table,
    (size, calls): (usize, usize),
    steps: &[Step],
) -> Result<Vec<StepEvent>, Fail> {
    let disk = MemDisk::new(alloc, vec![in alloc; 0u8; size]?, calls)?;
    let (trace, _left) = whole_life(alloc, disk, table, steps).ok().ok_or("a run")?;
    Ok(trace)
}

/// The first place at which a trace isn't the expected one.
pub fn differs_at(trace: &[StepEvent], wanted: &[StepEvent]) -> Option<usize> {
    if trace.len() != wanted.len() {
        return Some(trace.len());
    }
    for (place, event) in trace.iter().enumerate() {
        match wanted.get(place) {
            Some(other) if other == event => {}
            _ => return Some(place),
        }
    }
    None
}
