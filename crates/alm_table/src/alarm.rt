//! An alarm of the file.

ghost use Rattle.std.specs.Prelude.{◌≡◌, ◌≤◌, ◌<◌, Ok, IfOk, IfErr};
ghost use Rattle.toml.specs.View.{table_view};
ghost use Rattle.alm_table.specs.TableFile.{read_alarm};
ghost use Rattle.alm_table.specs.Faults.{IsFaultIn, element_of};
ghost use Rattle.alm_types.specs.Sizes.{most_areas};

use crate::load_fault::LoadFault;
use crate::section::Section;
use alm_types::Attr;
use std::alloc::Global;
use toml::Table;

/// The alarm of a number, in a plant with `areas` areas.
pub fn alarm_of(alloc: Global, table: &Table, number: u32, areas: u8) -> Result<Attr, LoadFault>
    requires { (1 ≤ areas) × (areas ≤ most_areas) }
    ensures ok { IfOk result
        (λ a. read_alarm number areas (table_view table.now) ≡ Ok (element_of a)) }
    ensures area { IfOk result (λ a. a.area < areas) }
    ensures err { IfErr result (λ e. IsFaultIn e (read_alarm number areas (table_view table.now))) }
{
    let section = Section {
        alloc,
        alarm: Some(number),
        table,
    };
    section.known()?;
    let kind = section.kind("kind")?;
    let setpoint = section.reading("setpoint")?;
    let priority = section.natural("priority", 1, 4)?;
    let area = section.natural("area", 0, u64::from(areas - 1))?;
    let deadband = section.natural_or_zero("deadband", kind.deadband_limit())?;
    let max_shelve = section.natural_or_zero("max_shelve", 604_800)?;
    let latching = section.truth("latching")?;
    let tag = section.tag("tag")?;
    let text = section.text("text")?;
    Ok(Attr {
        kind,
        setpoint,
        deadband,
        priority: priority as u8,
        area: area as u8,
        latching,
        max_shelve: max_shelve as u32,
        tag,
        text,
    })
}
