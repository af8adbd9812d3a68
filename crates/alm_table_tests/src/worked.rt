//! A file of four alarms.

use crate::outcome::joined;
use alm_common_tests::same;
use alm_desk::worked_table;
use alm_table::table_of;
use alm_types::{Attr, Kind};
use std::test::Fail;

const SIZES: &str = "size = 28997\nareas = 2\n";

const TEMPERATURE: &str =
    "[[alarm]]\nkind = \"high\"\nsetpoint = 800\npriority = 1\narea = 0\ndeadband = 10\nmax_shelve = 3600\ntag = \"TI-101\"\ntext = \"Reactor, hot\"\n";

const PRESSURE: &str =
    "[[alarm]]\nkind = \"low\"\nsetpoint = 100\npriority = 2\narea = 0\ndeadband = 5\nmax_shelve = 3600\ntag = \"PI-102\"\n";

const SWITCH: &str =
    "[[alarm]]\nkind = \"discrete\"\nsetpoint = 1\npriority = 1\narea = 1\nlatching = true\ntag = \"XS-201\"\n";

const LEVEL: &str =
    "[[alarm]]\ntag = \"LI-202\"\narea = 1\npriority = 3\nsetpoint = -50\nkind = \"high\"\n";

/// The worked table, which is used if no table is read, as a file.
const WORKED: [&str; 5] = [
    SIZES,
    "[[alarm]]\nkind = \"high\"\nsetpoint = 800\ndeadband = 10\npriority = 1\narea = 0\nmax_shelve = 3600\ntag = \"TI-101\"\n",
    PRESSURE,
    SWITCH,
    "[[alarm]]\nkind = \"high\"\nsetpoint = 50\npriority = 3\narea = 1\ntag = \"LI-202\"\n",
];

#[test]
fn the_worked_table_as_a_file(rt: HostRuntime) -> Result<(), Fail> {
    let alloc = rt.alloc();
    let text = joined(alloc, &WORKED)?;
    let (size, table) = table_of(alloc, text.as_str().as_bytes()).map_err(|_| "refused")?;
    let worked = worked_table(alloc)?;
    same(size, 28_997)?;
    same(table.areas(), worked.areas())?;
    same(table.alarms().len(), worked.alarms().len())?;
    for (found, wanted) in table.alarms().iter().zip(worked.alarms()) {
        same(row(found), row(wanted))?;
        same(found.tag.as_bytes(), wanted.tag.as_bytes())?;
        same(found.text.as_bytes(), wanted.text.as_bytes())?;
    }
    Ok(())
}

/// An alarm in one row: setpoint, deadband, priority, area, latching, longest shelving.
fn row(attr: &Attr) -> (Kind, i64, u64, u8, u8, bool, u32) {
    (
        attr.kind,
        attr.setpoint.value(),
        attr.deadband,
        attr.priority,
        attr.area,
        attr.latching,
        attr.max_shelve,
    )
}

#[test]
fn each_attribute_is_that_of_the_file(rt: HostRuntime) -> Result<(), Fail> {
    let alloc = rt.alloc();
    let text = joined(alloc, &[SIZES, TEMPERATURE, PRESSURE, SWITCH, LEVEL])?;
    let (size, table) = table_of(alloc, text.as_str().as_bytes()).map_err(|_| "refused")?;
    same(size, 28_997)?;
    same(table.areas(), 2)?;
    let [temperature, pressure, switch, level] = table.alarms() else {
        return Err("alarms".into());
    };
    same(row(temperature), (Kind::High, 800, 10, 1, 0, false, 3600))?;
    same(row(pressure), (Kind::Low, 100, 5, 2, 0, false, 3600))?;
    same(row(switch), (Kind::Discrete, 1, 0, 1, 1, true, 0))?;
    same(row(level), (Kind::High, -50, 0, 3, 1, false, 0))?;
    same(temperature.tag.as_bytes(), b"TI-101".as_slice())?;
    same(temperature.text.as_bytes(), b"Reactor, hot".as_slice())?;
    same(level.tag.as_bytes(), b"LI-202".as_slice())?;
    same(level.text.as_bytes(), b"".as_slice())?;
    Ok(())
}
