//! The table in a text.

ghost use Rattle.std.specs.Prelude.{◌≡◌, ◌≤◌, ◌<◌, ◌&&◌, nat_le, Ok, IfOk, IfErr, IsTrue, IsSome, All, length, map};
ghost use Rattle.toml.specs.Data.{as_table};
ghost use Rattle.toml.specs.View.{view, table_view, array_view};
ghost use Rattle.alm_table.specs.TableFile.{read_alarm, read_alarms, read_file, are_tables, count, members_in};
ghost use Rattle.alm_table.specs.Faults.{IsFaultIn, IsFaultOf, ReadsAs, element_of, device_table};
ghost use Rattle.alm_types.specs.Sizes.{most_alarms, most_areas};

use crate::alarm::alarm_of;
use crate::load_fault::LoadFault;
use crate::section::Section;
use alm_types::{Attr, MOST_ALARMS, MOST_AREAS, Table};
use std::alloc::Global;
use toml::Value;
use toml::value::Array;

/// The alarm in an item.
fn alarm_in(alloc: Global, value: &Value, number: u32, areas: u8) -> Result<Attr, LoadFault>
    requires table { IsSome (as_table (view value.now)) }
    requires areas { (1 ≤ areas) × (areas ≤ most_areas) }
    ensures ok { IfOk result
        (λ a. read_alarm number areas (members_in (view value.now)) ≡ Ok (element_of a)) }
    ensures area { IfOk result (λ a. a.area < areas) }
    ensures err { IfErr result
        (λ e. IsFaultIn e (read_alarm number areas (members_in (view value.now)))) }
{
    match value.as_table() {
        Some(table) => alarm_of(alloc, table, number, areas),
        None => unreachable!(),
    }
}

/// Whether it is a number of alarms that a plant may have.
#[tactic(auto, using(crate::proofs::Alarms::count_view))]
fn in_number(array: &Array) -> bool
    ensures { result ≡
        (nat_le 1 (count (array_view array.now)) &&
        nat_le (count (array_view array.now)) most_alarms) }
{
    (1 <= array.len()) & (array.len() <= MOST_ALARMS)
}

/// The alarms by number.
fn alarms_of(alloc: Global, array: &Array, areas: u8) -> Result<Vec<Attr>, LoadFault>
    requires tables { IsTrue (are_tables (array_view array.now)) }
    requires few { count (array_view array.now) ≤ most_alarms }
    requires areas { (1 ≤ areas) × (areas ≤ most_areas) }
    ensures ok { IfOk result
        (λ v. read_alarms 0 areas (array_view array.now) ≡ Ok (map element_of v.items)) }
    ensures all { IfOk result (λ v. length v.items ≡ count (array_view array.now)) }
    ensures areas { IfOk result (λ v. All (λ a. a.area < areas) v.items) }
    ensures err { IfErr result (λ e. IsFaultIn e (read_alarms 0 areas (array_view array.now))) }
{
    let mut alarms = Vec::new(alloc);
    let mut number = 0u32;
    for value in array {
        let alarm = alarm_in(alloc, value, number, areas)?;
        if alarms.push(alarm).is_err() {
            return Err(LoadFault::OutOfMemory);
        }
        number = number.saturating_add(1);
    }
    Ok(alarms)
}

/// The size of the device, and the table.
fn file_of(alloc: Global, table: &toml::Table) -> Result<(u64, Table), LoadFault>
    ensures ok { IfOk result (λ p. read_file (table_view table.now) ≡ Ok (device_table p.0 p.1)) }
    ensures err { IfErr result (λ e. IsFaultIn e (read_file (table_view table.now))) }
{
    let section = Section {
        alloc,
        alarm: None,
        table,
    };
    section.known()?;
    let size = section.natural("size", 1, 1_099_511_627_776)?;
    let areas = section.natural("areas", 1, MOST_AREAS as u64)? as u8;
    let array = section.tables("alarm")?;
    if !in_number(array) {
        return Err(LoadFault::Rows);
    }
    let alarms = alarms_of(alloc, array, areas)?;
    match Table::new(alarms, areas) {
        Ok(table) => Ok((size, table)),
        Err(_) => unreachable!(),
    }
}

/// The size of the device and the table that the tree of a text says.
pub fn table_of(alloc: Global, text: &[u8]) -> Result<(u64, Table), LoadFault>
    // The text has a tree, and this is what it says.
    ensures ok { IfOk result (λ p. ReadsAs text.now (Ok (device_table p.0 p.1))) }
    // A fault of a key or of the rows is the first of the tree; a text is reported as no TOML only if it has no tree.
    ensures err { IfErr result (λ e. IsFaultOf e text.now) }
{
    let table = match toml::table_from_slice(alloc, text) {
        Ok(table) => table,
        Err(error) if error.is_memory() => return Err(LoadFault::OutOfMemory),
        Err(_) => return Err(LoadFault::NotToml),
    };
    file_of(alloc, &table)
}
