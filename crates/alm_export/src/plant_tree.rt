//! The table of a plant.

ghost use Rattle.std.specs.Prelude.{◌≡◌, ◌≤◌, IfOk, length, take};
ghost use Rattle.toml.specs.View.{array_view, table_view};
ghost use Rattle.alm_model.specs.Rules.{KeepsRules};
ghost use Rattle.alm_export.specs.Tree.{alarm_items, file_members};

use crate::alarm_tree::alarm_table;
use crate::tree::put;
use alm_model::Alarms;
use alm_types::AlarmId;
use std::alloc::{AllocError, Global};
use toml::value::Array;
use toml::{Table, Value};

/// The tables of the alarms below a number.
fn alarm_array<P: Alarms>(alloc: Global, plant: &P, count: u32) -> Result<Array, AllocError>
    requires { count ≤ length (P.plant plant.now).panel.attrs }
    ensures { IfOk result
        (λ v. array_view v ≡ alarm_items (take count (P.plant plant.now).panel.attrs)) }
{
    let mut array = Vec::new(alloc);
    for number in 0..count {
        let Some(attr) = plant.attr(AlarmId(number)) else {
            unreachable!()
        };
        let table = alarm_table(alloc, &attr)?;
        if array.push(Value::Table(table)).is_err() {
            return Err(AllocError);
        }
    }
    Ok(array)
}

/// The table of a plant whose device has this size. The plant keeps the rules of every plant.
pub fn plant_table<P: Alarms>(alloc: Global, plant: &P, size: u64) -> Result<Table, AllocError>
    requires { size ≤ 1099511627776 }
    ensures rules { KeepsRules (P.plant plant.now) }
    ensures table { IfOk result
        (λ t. table_view t ≡
        file_members size (length (P.plant plant.now).floods) (P.plant plant.now).panel.attrs) }
{
    let count = plant.alarms() as u32;
    let areas = plant.areas() as i64;
    let alarms = alarm_array(alloc, plant, count)?;
    let mut table = Table::new(alloc);
    put(alloc, &mut table, "alarm", Value::Array(alarms))?;
    put(alloc, &mut table, "areas", Value::Integer(areas))?;
    put(alloc, &mut table, "size", Value::Integer(size as i64))?;
    Ok(table)
}
