//! A table of six alarms in three areas.

use alm_types::{Attr, Kind, Settings, Table};
use std::alloc::Global;

fn attr(kind: Kind, setpoint: i64, deadband: u64, area: u8, latching: bool) -> Option<Attr> {
    let settings = Settings {
        kind,
        setpoint,
        deadband,
        priority: 1,
        area,
        latching,
        max_shelve: 3600,
    };
    Attr::new(settings, b"TI-101", b"").ok()
}

/// The alarms 0 and 1 in area 0, 2 and 3 in area 1, 4 and 5 in area 2; `None` if out of memory.
pub fn table(alloc: Global) -> Option<Table> {
    let alarms = [
        attr(Kind::High, 800, 10, 0, false)?,
        attr(Kind::Low, 100, 5, 0, false)?,
        attr(Kind::Discrete, 1, 0, 1, true)?,
        attr(Kind::High, 50, 0, 1, false)?,
        attr(Kind::High, 0, 0, 2, true)?,
        attr(Kind::Low, 0, 0, 2, false)?,
    ];
    Table::new(alarms.to_vec(alloc).ok()?, 3).ok()
}
