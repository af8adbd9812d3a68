//! Tables of alarms of all kinds, priorities and areas.

ghost use Rattle.std.specs.Prelude.{◌<◌};

use alm_types::{Attr, Kind, Settings, Table};
use std::alloc::Global;

fn kind_of(number: u32) -> Kind {
    match number % 3 {
        0 => Kind::High,
        1 => Kind::Low,
        _ => Kind::Discrete,
    }
}

/// `rows` alarms, spread over the areas, the priorities and the kinds; each fourth one latches, and each low one has a deadband.
/// Neighbours differ in longest shelving, tag and text. Each has its setpoint at 0. `None` if out of memory.
pub fn table(alloc: Global, rows: u32, areas: u8) -> Option<Table>
    requires { 0 < areas }
{
    let mut alarms = Vec::with_capacity(alloc, rows as usize).ok()?;
    for number in 0..rows {
        let letter = [b'A' + (number % 26) as u8];
        let settings = Settings {
            kind: kind_of(number),
            setpoint: 0,
            deadband: u64::from(number % 3 == 1),
            priority: 1 + (number / 3 % 4) as u8,
            area: (number % areas as u32) as u8,
            latching: number % 4 == 1,
            max_shelve: 3600 + number % 60,
        };
        alarms
            .push(Attr::new(settings, &letter, &letter).ok()?)
            .ok()?;
    }
    Table::new(alarms, areas).ok()
}
