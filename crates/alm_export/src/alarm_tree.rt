//! The table of an alarm.

ghost use Rattle.std.specs.Prelude.{◌≡◌, IfOk};
ghost use Rattle.toml.specs.View.{table_view};
ghost use Rattle.alm_export.specs.Tree.{alarm_members, kind_name};

use crate::printed::ascii;
use crate::tree::put;
use alm_types::{Attr, Kind};
use std::alloc::{AllocError, Global};
use toml::{Table, Value};

/// The name of a kind.
fn kind_name(kind: Kind) -> &'static str
    ensures { result.now ≡ kind_name kind }
{
    match kind {
        Kind::High => "high",
        Kind::Low => "low",
        Kind::Discrete => "discrete",
    }
}

/// The table of an alarm.
pub fn alarm_table(alloc: Global, attr: &Attr) -> Result<Table, AllocError>
    ensures { IfOk result (λ t. table_view t ≡ alarm_members attr.now) }
{
    let mut table = Table::new(alloc);
    let deadband = Value::Integer(attr.deadband as i64);
    let kind = Value::string(alloc, kind_name(attr.kind))?;
    let max_shelve = Value::from(attr.max_shelve);
    let setpoint = Value::from(attr.setpoint.value());
    let tag = Value::string(alloc, ascii(attr.tag.as_bytes()))?;
    let text = Value::string(alloc, ascii(attr.text.as_bytes()))?;
    put(alloc, &mut table, "area", Value::from(attr.area))?;
    put(alloc, &mut table, "deadband", deadband)?;
    put(alloc, &mut table, "kind", kind)?;
    put(alloc, &mut table, "latching", Value::from(attr.latching))?;
    put(alloc, &mut table, "max_shelve", max_shelve)?;
    put(alloc, &mut table, "priority", Value::from(attr.priority))?;
    put(alloc, &mut table, "setpoint", setpoint)?;
    put(alloc, &mut table, "tag", tag)?;
    put(alloc, &mut table, "text", text)?;
    Ok(table)
}
