//! A worked table of four alarms in two areas, its actions, and devices in memory.

use alm_disk::MemDisk;
use alm_types::{Action, AlarmId, Attr, Kind, Moment, Reading, Settings, Table};
use std::alloc::Global;
use std::test::Fail;

/// The smallest device that takes the table.
pub const SIZE: usize = 28_997;

/// How many calls a device notes.
const CALLS: usize = 200;

/// The settings of an alarm.
fn settings(kind: Kind, setpoint: i64, deadband: u64, priority: u8, area: u8) -> Settings {
    Settings {
        kind,
        setpoint,
        deadband,
        priority,
        area,
        latching: kind == Kind::Discrete,
        max_shelve: if area == 0 { 3600 } else { 0 },
    }
}

/// The table, if there is memory for it.
pub fn try_table(alloc: Global) -> Option<Table> {
    let mut alarms = Vec::new(alloc);
    for (kind, setpoint, deadband, priority, area, tag) in [
        (Kind::High, 800, 10, 1, 0, b"TI-101"),
        (Kind::Low, 100, 5, 2, 0, b"PI-102"),
        (Kind::Discrete, 1, 0, 1, 1, b"XS-201"),
        (Kind::High, 50, 0, 3, 1, b"LI-202"),
    ] {
        let attr = Attr::new(settings(kind, setpoint, deadband, priority, area), tag, b"").ok()?;
        alarms.push(attr).ok()?;
    }
    Table::new(alarms, 2).ok()
}

/// The table.
pub fn table(alloc: Global) -> Result<Table, Fail> {
    match try_table(alloc) {
        Some(table) => Ok(table),
        None => Err(Fail::new("no table")),
    }
}

/// A device of `size` bytes 0xA5, if there is memory for it.
pub fn try_device(alloc: Global, size: usize) -> Option<MemDisk> {
    let bytes = vec![in alloc; 0xA5u8; size].ok()?;
    MemDisk::new(alloc, bytes, CALLS).ok()
}

/// A device of `size` bytes 0xA5.
pub fn device(alloc: Global, size: usize) -> Result<MemDisk, Fail> {
    match try_device(alloc, size) {
        Some(disk) => Ok(disk),
        None => Err(Fail::new("no device")),
    }
}

/// The clock moves to a second.
pub fn clock(seconds: u64) -> Action {
    Action::Clock(Moment::new(seconds).unwrap_or(Moment::start()))
}

/// An alarm has a reading.
pub fn value(alarm: u32, reading: i64) -> Action {
    match Reading::new(reading) {
        Some(reading) => Action::Value(AlarmId(alarm), reading),
        None => Action::Reset(AlarmId(alarm)),
    }
}

/// An alarm is acknowledged.
pub fn ack(alarm: u32) -> Action {
    Action::Ack(AlarmId(alarm))
}
