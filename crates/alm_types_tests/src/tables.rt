//! Tables and batches.

use alm_common_tests::{same, same_at, slot_of};
use alm_types::{
    Action, AlarmId, Attr, Batch, Entry, Kind, Refusal, Settings, Table, TableFault, Verdict, Want,
};
use std::alloc::Global;
use std::test::Fail;

/// An alarm of an area.
fn alarm(area: u8) -> Result<Attr, Fail> {
    let settings = Settings {
        kind: Kind::Low,
        setpoint: 0,
        deadband: 0,
        priority: 4,
        area,
        latching: true,
        max_shelve: 0,
    };
    Ok(Attr::new(settings, b"T", b"")?)
}

/// The fault of a table of `rows` alarms of an area.
fn fault(alloc: Global, rows: usize, area: u8, areas: u8) -> Result<Option<TableFault>, Fail> {
    let alarms = vec![in alloc; alarm(area)?; rows]?;
    Ok(Table::new(alarms, areas).err())
}

/// How many alarms, the area of each and how many areas, and the fault of such a table.
const TABLES: [(usize, u8, u8, Option<TableFault>); 8] = [
    (0, 0, 0, Some(TableFault::NoRows)),
    (1, 0, 1, None),
    (16384, 0, 1, None),
    (16385, 0, 0, Some(TableFault::TooManyRows)),
    (1, 63, 0, Some(TableFault::Areas)),
    (1, 63, 64, None),
    (1, 63, 65, Some(TableFault::Areas)),
    (2, 63, 63, Some(TableFault::AreaOf(0))),
];

#[test]
fn tables_at_their_limits(rt: HostRuntime) -> Result<(), Fail> {
    for (rows, area, areas, wanted) in TABLES {
        let fault = fault(rt.alloc(), rows, area, areas)?;
        same_at((rows, areas), fault, wanted)?;
    }
    Ok(())
}

/// Alarms of these areas.
fn alarms_of(alloc: Global, areas: &[u8]) -> Result<Vec<Attr>, Fail> {
    let mut alarms = Vec::new(alloc);
    for area in areas {
        alarms.push(alarm(*area)?)?;
    }
    Ok(alarms)
}

#[test]
fn the_first_alarm_in_no_area(rt: HostRuntime) -> Result<(), Fail> {
    let alarms = alarms_of(rt.alloc(), &[0, 1, 2, 0, 7])?;
    let fault = Table::new(alarms, 2).err();
    same(fault, Some(TableFault::AreaOf(2)))?;
    Ok(())
}

/// Whether a table has two areas and, after one more alarm, an alarm of the second one.
fn has_its_rows(table: &Table) -> bool {
    match table.alarms() {
        [_, alarm] => {
            table.areas() == 2
                && alarm.area == 1
                && alarm.tag.as_bytes() == b"T".as_slice()
                && alarm.text.as_bytes() == b"".as_slice()
        }
        _ => false,
    }
}

#[test]
fn a_table_gives_its_rows(rt: HostRuntime) -> Result<(), Fail> {
    let table = Table::new(alarms_of(rt.alloc(), &[0, 1])?, 2)?;
    let same = has_its_rows(&table);
    drop(table);
    assert!(rt; same);
    Ok(())
}

#[test]
fn a_batch_of_256(rt: HostRuntime) -> Result<(), Fail> {
    let mut batch = Batch::new(rt.alloc())?;
    same(batch.first(), 1)?;
    for serial in 1..=256_u64 {
        assert!(rt; !batch.is_full(), "before {serial}");
        batch.push(Entry {
            slot: slot_of(3)?,
            serial,
            want: Want::Do(Action::Ack(AlarmId(0))),
            verdict: Verdict::Refused(Refusal::NotUnacknowledged, 0),
        });
    }
    assert!(rt; batch.is_full());
    same(batch.entries().len(), 256)?;
    batch.restart(7);
    same(batch.first(), 7)?;
    assert!(rt; batch.entries().is_empty());
    Ok(())
}
